// Swap legs that fit each other, and the rows without such pairs: specs/ defines them, proofs/ has their laws.
#![tactic(auto)]
