//! Lemmas of records one after another: what one record more registers, and which ids a list of them has. `proofs/` has them.
#![tactic(auto)]
