// The sweep with counters: the model's sweep on every plan that keeps the rules (specs/ and proofs/). There is no code here.
#![tactic(auto)]
