// The contracts of the original (cordis-verus, publication.rs and publication/values.rs), clause by clause, each proved of what the rules
// give on a sound table. Its definitions stand in specs/, its clauses with their proofs in proofs/, named as docs/CONTRACTS.md numbers
// them. There is no code here.
#![tactic(auto)]
