//! The compiler of trees, in one walk: a jump over code that doesn't stand yet is held, and written
//! once that code stands.
//!
//! Its one contract: the code of a function's body is that of the scheme, put after the code before
//! it. The compiler of functions and of whole programs stands on it.
#![tactic(auto)]

mod expr;
mod jumps;
mod making;
mod stmt;
mod tables;

pub use stmt::emit_body;
