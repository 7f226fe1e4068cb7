//! The parser: of the tokens of a file, its tree or its first fault.
//!
//! [`parse`] answers with the tree that the grammar gives the tokens, if that is nowhere deeper
//! than the limit. Else it names the line of the first fault: a token with which no file goes on,
//! or one that stands too deep. `specs/Grammar.antt` is the grammar, one case for each
//! alternative, and `specs/Depth.antt` says how deep each token of a tree stands.
//! `command_inputs` parses files by it, and the type checker takes its trees.
//!
//! The laws of [`laws`] say that this settles each answer but that memory is short. A list of
//! tokens has at most one tree, the size of the tree is the number of the tokens, and each token
//! stands at one depth, whatever comes behind it. A list that ends in its one `End` has a tree that
//! is nowhere too deep, or a first fault.
//!
//! The parser is a descent by the grammar: a function for each part takes the tokens that are left,
//! and answers with the tree of its part, in a box, and the tokens behind it. Here are statements,
//! functions, classes and files; `parse_exprs`, below, reads expressions and has what all parts are
//! made with. Each is proved to go where the machine of `parse_exprs` goes, which passes over the
//! tokens by what is still to come, and the machine is proved to go by the grammar.
#![tactic(auto)]

mod item;
pub mod laws;
mod parse_fault;
mod parser;
mod plain_stmt;
mod stmt;
mod stmt_node;

pub use parse_fault::ParseFault;
pub use parser::parse;
