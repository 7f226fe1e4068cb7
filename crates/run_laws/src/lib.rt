//! What is true of the runs of codes: each slice leaves what fits and numbers its sporks in order,
//! the slices at one sample come to an end, and the run of a verified code is sound at each sample.
//!
//! Its contracts are the laws of [`laws`]. The laws of runs by any runner, which `ck_run` has, hold
//! of codes by its proofs: `Lawful` says that codes keep what those ask for.
#![tactic(auto)]

pub mod laws;
