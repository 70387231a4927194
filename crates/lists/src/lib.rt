// Lists: words of lists (specs/), their laws and the laws of loops (proofs/). There is no code here: every other crate cites them.
#![tactic(auto)]
