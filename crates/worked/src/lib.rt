// Books worked by hand, and facts of the papers, as theorems about the definitions: specs/ states them, proofs/ computes them.
#![tactic(auto)]
