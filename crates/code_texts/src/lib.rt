//! The strings of a code, which its instructions name by numbers: each once, in the order of their
//! first uses in the code.
//!
//! Its one contract: the strings of functions are those that the scheme says, and the number of a
//! string is its index among them. The compiler of trees asks for the numbers, that of whole
//! programs for the strings.
#![tactic(auto)]

mod collect;
mod texts;

pub use collect::collect_texts;
pub use texts::Texts;
