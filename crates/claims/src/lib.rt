// What is claimed of the calls together, as theorems about the definitions that their promises cite: specs/ states them, proofs/ proves them.
#![tactic(auto)]
