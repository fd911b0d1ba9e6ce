// The log's format, and that it is what the product reads and writes, are in specs and proofs: there is no code here.
#![tactic(auto)]
