//! Lists in which each key stands at most once: what is pushed, and what is taken out by its key.
//!
//! It has no function: its definitions are those in which the queues of due and of waiting shreds
//! are stated, and its proofs what both queues need of such lists.
#![tactic(auto)]
