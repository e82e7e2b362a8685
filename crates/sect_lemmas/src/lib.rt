//! Lemmas on lists, options, numbers and tests, which the proofs of all other crates cite, and their words. It has no
//! code.
#![tactic(auto)]
