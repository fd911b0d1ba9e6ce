// What is proved of the register map is in specs and proofs: there is no code here.
#![tactic(auto)]
