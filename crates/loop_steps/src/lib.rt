//! The instructions that loops and calls are made of.
//!
//! Its one contract: each function does what the definition of its instruction says, or ends by
//! exactly its trap, or there was not enough memory; and a whole line of instructions on ints,
//! which [`go_on_with_int`] carries out with the int on the top held apart, comes exactly where
//! its instructions come one by one. The machine calls them within its loop.
#![tactic(auto)]

mod arrays;
mod control;
mod ints;
mod objects;
mod values;
mod variables;

pub use arrays::{append, put_item, set_item};
pub use control::{call, jump, jump_if_zero, leave, send, turn, wait};
pub use ints::{counted_to, go_on_with_int, int_put};
pub use objects::{put_field, set_field};
pub use values::{discard, double, operate, operate_on_one, put_units};
pub use variables::{put_local, put_static, set_local, set_static, update_local, update_static};
