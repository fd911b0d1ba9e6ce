// The rows of the paper, each worked out, are in specs and proofs: there is no code here.
#![tactic(auto)]
