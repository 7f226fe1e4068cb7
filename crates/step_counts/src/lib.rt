//! How many steps the code of a checked program has.
//!
//! Its contracts are the laws of [`laws`], about the definitions of typing and of the scheme alone: a
//! function has at most a fixed number of steps a token, and so fewer than 2^32. Nothing stands on
//! them yet; by them a code that is written down may have its places in 32 bits.
#![tactic(auto)]

pub mod laws;
