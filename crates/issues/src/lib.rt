// Rows of one issue, netted: definitions in specs/ and laws in proofs/.
#![tactic(auto)]
