//! Lemmas on Booleans, numbers, options and lists that the kit lacks, for the proofs of the crates above. It has no code.
#![tactic(auto)]
