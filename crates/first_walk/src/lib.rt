//! The first walk of a file, which enters all names that it declares into the table.
//!
//! [`enter_file`] enters all of one file into a [`type_table::Table`], or gives its first fault:
//! its classes in text order, then their parents, then members, functions and file variables in
//! text order. Its one contract: the table is exactly that of the definition. The laws of what is
//! entered stand here too.
#![tactic(auto)]

mod classes;
mod declarations;
mod expressions;
mod funs;
mod heads;
mod parents;
mod statements;
mod walk;

pub use classes::next_class;
pub use walk::{enter_file, have_statement};
