// The canonical text reads back to the same productions: specs/ states it of the definitions of the crate model, and proofs/ shows it.
#![tactic(auto)]
