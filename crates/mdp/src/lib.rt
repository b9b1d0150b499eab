// Markov decision processes, strategies, simulation graphs and figures. There is no code here: specs/ has the
// definitions, proofs/ the theorems of demand 3 over them.

#![tactic(auto)]
