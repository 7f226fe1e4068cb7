//! The tokens of the language: the bytes of a source file, cut into names, words, numbers, texts
//! and marks, each with its line and its place.
//!
//! A file is spaces, comments and tokens in turn. At each place the longest bytes are taken that
//! have the form of a token; where those are a number past its range, or a name or a text that is
//! too long, nothing shorter stands in their place. `//` and `/*` always begin a comment.
//!
//! Its one contract is exact both ways: [`tokens`] answers `Ok` with the tokens that the
//! definitions give for the bytes, with one End behind them, and `Lex` exactly where a byte comes
//! first at which nothing begins, with its place and its line. The definitions are a relation on
//! whole byte strings, read beside a description of the language: the tables of words and marks,
//! one case for each form of a token, and what stands between them. [`laws`] says that they give
//! a file one list of tokens or one fault, and never both.
//!
//! The parser stands on it: it sees tokens, and never the bytes. Values are final here: an `Int`
//! is in range, a `Float` is rounded up to a unit, a `Text` has its escapes read.
#![tactic(auto)]

mod bytes;
mod fault;
mod gap;
pub mod laws;
mod mark;
mod name;
mod number;
mod quoted;
mod scan;
mod table;
mod token;
mod word;

pub use fault::LexFault;
pub use mark::Mark;
pub use scan::tokens;
pub use token::{Token, TokenKind};
pub use word::Word;
