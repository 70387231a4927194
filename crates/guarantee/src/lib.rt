// Guarantee: demand 3 over every list of calls, stated in specs/Guarantee.antt and proved in proofs/. There is no code here.
#![tactic(auto)]
