//! Laws of the steps that expressions make: what the definition of typing gives makes at most a
//! fixed number of steps a token.
//!
//! It has no function: its proofs are about the definitions alone, and carry the part of
//! [`step_counts`](../step_counts) that is about expressions.
#![tactic(auto)]
