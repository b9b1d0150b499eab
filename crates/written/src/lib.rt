// Request 2.5: a graph as bytes. There is no code here: specs/ has the definitions, proofs/ the theorems over them.

#![tactic(auto)]
