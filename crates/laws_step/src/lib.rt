// What is proved of every step is in specs and proofs: there is no code here.
#![tactic(auto)]
