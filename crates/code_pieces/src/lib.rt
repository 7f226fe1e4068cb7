//! The instructions that an expression puts behind the codes of its operands.
//!
//! Its one contract: what each function puts after the code before it is what the scheme has
//! there, instruction by instruction, and nothing is put before it. The compilers of trees and of
//! whole programs stand on it.
#![tactic(auto)]

mod operations;
mod spots;
mod steps;

pub use operations::{emit_binary, emit_leaf, emit_unary, emit_variadic};
pub use spots::{emit_set, emit_stepped, emit_stepped_back, emit_update};
pub use steps::{put, put_three, put_two};
