// Two logs side by side and printed text, and that they are what the product does, are in specs and proofs: there is no code here.
#![tactic(auto)]
