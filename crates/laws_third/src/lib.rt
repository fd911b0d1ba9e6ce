// Demand 3 in propositions, and that it holds of the account, are in specs and proofs: there is no code here.
#![tactic(auto)]
