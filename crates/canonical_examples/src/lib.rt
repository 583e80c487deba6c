// Texts and their canonical texts, byte for byte: specs/ lists them, and proofs/ shows by computation that the definitions give them.
#![tactic(auto)]
