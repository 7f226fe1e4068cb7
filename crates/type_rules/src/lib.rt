//! What types fit, and what operators and built-in calls take and give.
//!
//! Its one contract: [`fits`], [`chosen`], [`join`], [`has_call`], [`call`] and [`param`] are exactly
//! what the definitions say. The type checker asks them.
//!
//! The tables of operators and of built-in calls stand in `operators` and `calls`, and the definitions
//! name them; [`laws`] tells their rows once more, by their names: an operator more is a row and a name
//! more. The parameters of unit generators stand in the table of `ugen_names`.
#![tactic(auto)]

mod calls;
mod fitting;
pub mod laws;
mod operators;
mod params;

pub use calls::{BuiltIn, Holder, call, has_call};
pub use fitting::{chosen, fits, is_below, is_reference, is_same, is_within};
pub use operators::{Joined, are_references, is_widened, join};
pub use params::{Parameter, param};
