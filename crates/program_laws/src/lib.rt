//! The definition of the typing of statements and of whole programs, and its laws: every program
//! that it gives is well formed, and every fault stands in one of the files.
//!
//! Its one contract is that definition; the laws are about it alone. `check_decls` computes it, and
//! hands on by these laws that a checked program is well formed.
#![tactic(auto)]

mod surroundings;

pub use surroundings::Surroundings;
