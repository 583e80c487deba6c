// The reader of calls gives what the grammar's one reading of a text has: specs/ states it of the definitions that the contracts of calls cite, and proofs/ shows it.
#![tactic(auto)]
