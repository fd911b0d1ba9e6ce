// What the demands say of an image that a head moves by the calls for C is in specs and proofs: there is no code here.
#![tactic(auto)]
