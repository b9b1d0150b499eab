// Document 02, 2.5: a graph while it is built, in the node records of a slice. There is no code here: specs/ has what the records
// hold, proofs/ what a written field changes of it.

#![tactic(auto)]
