// The claims that no single call states. specs/ words them, and proofs/ shows them.
#![tactic(auto)]
