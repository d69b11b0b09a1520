// Sums over lists, and tables of sums: specs/ says what they are, proofs/ has their laws. There is no code here.
#![tactic(auto)]
