// That each public call's contract allows one outcome is in specs and proofs: there is no code here.
#![tactic(auto)]
