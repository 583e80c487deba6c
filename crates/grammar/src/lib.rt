// The grammar of Appendix B as document 01 narrows it: specs/ states it as relations, and proofs/ shows that the definitions of the crate model accept exactly what it derives, each text in one way.
#![tactic(auto)]
