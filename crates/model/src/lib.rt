// Model: document 01 as definitions (specs/) and the theorems about them (proofs/). There is no code here: the crates above cite the definitions.
#![tactic(auto)]
