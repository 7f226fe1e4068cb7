//! What every layer of the compiler and the machine speaks of, tokens and grammar too: limits, texts
//! and lists.
//!
//! Its one contract: contracts see each of these as plain data. A [`Text`] is its bytes and a
//! [`List`] its items. No layer above needs to know how they are kept.
#![tactic(auto)]

pub mod laws;
pub mod limits;
mod list;
mod text;

pub use list::List;
pub use text::Text;
