// What the writer leaves in a buffer reads back to the same productions: specs/ states it of what the contracts of the compiler,
// the merger and the writer say, and proofs/ shows it.
#![tactic(auto)]
