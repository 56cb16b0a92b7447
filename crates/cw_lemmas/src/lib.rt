//! Lemmas of truths, options, lists and numbers that std doesn't have, for the proofs of the crates above. No code.
#![tactic(auto)]
