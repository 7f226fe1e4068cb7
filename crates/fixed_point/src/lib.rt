//! Fixed-point numbers, the arithmetic of every sample and of every printed `float`.
//!
//! A [`Fix`] is a signed 64-bit count of units of 2^-32. Contracts see that count, a whole number
//! without a bound: each result is the exact one, floored to a unit and clamped to the range once.
//! Every crate above computes with it. `print6` gives the text of a number, `sine`, `increment` and
//! `phase_of` what an oscillator wants of its phase, and `laws` has what follows from the
//! definitions alone.
#![tactic(auto)]

mod decimals;
mod fix;
pub mod laws;
mod memory;
mod phase;
mod rounding;

pub use fix::Fix;
pub use memory::{HandedBack, Memory};
pub use phase::{increment, phase_of, sine};
pub use rounding::nearest_in_range;
