//! The reading of expressions, and what all parts of the parser are made with.
//!
//! A function for each part of an expression takes the tokens that are left, and answers with the
//! tree of its part, in a box, and the tokens behind it. Its one contract, `reads`, is that it goes
//! where the machine of `specs/Machine.antt` goes, which passes over the tokens by what is still to
//! come, and has the tree that the machine then has. Where the machine stops, the function names
//! that token and why, unless memory is short. A second clause, `fewer`, says that it comes nearer
//! to the end, so that every descent ends.
//!
//! [`tokens`] looks at what comes next, [`type_name`] reads types, [`node`] and [`heap`] make
//! trees, and [`expr`] reads expressions. `ck_parser` stands on them: it reads statements and whole
//! files in the same way, and proves that the machine goes by the grammar.
#![tactic(auto)]

mod ahead;
pub mod expr;
mod fault;
mod follow;
pub mod heap;
pub mod node;
mod opening;
mod operand;
pub mod tokens;
pub mod type_name;

pub use fault::{Fault, Parsed, ParsedTo};
pub use opening::Opening;
pub use operand::Operand;
