//! A shred: the functions that run, with their locals and operands, and the turns that it has left.
//!
//! Its one contract: contracts see the frames as lists of values, the one that runs first, and each
//! call says what it does to these lists. All frames share one stack of values, so no call of a
//! function takes memory once that stack has grown; no value is copied here or let go: each one
//! that leaves a frame is handed back. It knows no code: the machine above tells it which function
//! to enter, and with how many parameters.
#![tactic(auto)]

mod extent;
mod first_values;
mod shred;

pub use first_values::add_first_values;
pub use shred::{EnterEnd, Shred};
