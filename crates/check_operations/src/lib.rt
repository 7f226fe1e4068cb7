//! What literals, words, operators, casts, arrays and `new` stand for, once their operands are
//! typed.
//!
//! Its one contract: each call answers with what the definition says of its form: the value, or
//! the place of an item, or exactly the fault. Only want of memory is a free answer. The typing
//! of whole expressions stands on it.
#![tactic(auto)]

mod arrays;
mod casts;
mod durations;
mod literals;
mod objects;
mod operators;
mod steps;
mod words;

pub use arrays::{array_meaning, item_meaning};
pub use casts::{cast_meaning, choice_meaning};
pub use durations::dur_meaning;
pub use literals::{float, int, text, unit};
pub use objects::{new_meaning, new_with_meaning};
pub use operators::binary_meaning;
pub use steps::{postfix_meaning, prefix_meaning};
pub use words::{unit_in, word_meaning};
