// The bounded matcher in the terms of document 01: specs/ defines it and proofs/ shows demand 3 of it. The code that runs it is elsewhere.
#![tactic(auto)]
