// What is proved of every run and every log is in specs and proofs: there is no code here.
#![tactic(auto)]
