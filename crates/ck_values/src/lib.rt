//! The values of the language and their types, as every layer above tokens and grammar speaks of
//! them: kinds of values, operators, traps with their places in the source, references, sides, and
//! values. The kinds of unit generators and their parameters stand in `ugen_names` beneath.
//!
//! Its one contract: contracts see each of these as plain data, a [`Ref`] as the number and the
//! slot of an object, and a copy of a value is equal to it. What a value means to a program is
//! `specs/Datum`. Typing, the compiler and the machine use it; tokens and grammar don't.
#![tactic(auto)]

mod kind;
mod operator;
mod reference;
mod side;
mod trap;
mod value;

pub use kind::{Elem, Kind};
pub use operator::{Op1, Op2};
pub use reference::Ref;
pub use side::Side;
pub use trap::{Place, Trap};
pub use value::Value;
