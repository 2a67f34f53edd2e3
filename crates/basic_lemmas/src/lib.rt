//! General lemmas on tests, lists, counts and ranges, which know nothing of cameras. See `proofs/`.
#![tactic(auto)]
