// What is proved of every image that a call leaves is in specs and proofs: there is no code here.
#![tactic(auto)]
