// Runs that try the account and the third demand are in specs and proofs: there is no code here.
#![tactic(auto)]
