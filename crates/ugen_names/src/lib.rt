//! The kinds of unit generators and their parameters: what each is called, what parameters it has, of
//! which type, what each reads at first, and which can't be set.
//!
//! Its one contract: [`UGENS`] is the table of all this, one row a kind, and the definitions are that
//! table: what [`unit_named`], [`parameter_named`], [`unit_name`] and [`parameter_name`] answer is what
//! stands there. Typing, prints and listings ask them; [`laws`] has what holds of the table alone. The
//! laws of `ugen_kinds` tie the table to what unit generators keep: a row with another type, another
//! first value, a parameter too many or one too few is refused there.
//!
//! A kind without a row (the two of the run's own, and those to come) is no type of the language.
#![tactic(auto)]

pub mod laws;
mod look_up;
mod param;
mod table;

pub use look_up::{parameter_named, unit_name, unit_named};
pub use param::{Param, ParamType, parameter_name};
pub use table::{COMMON, Parameter, Row, UGENS, UgenKind};
