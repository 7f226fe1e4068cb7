//! The names that files declare: classes, functions, members and file variables.
//!
//! The look-ups of [`Table`] find a name by its hash, and [`Table::finish`] hands on the classes
//! and the types of static variables for the typed program. Contracts see a table as plain lists
//! in the order of the text. A file is entered by `first_walk`, on top of this crate.
#![tactic(auto)]

mod built_ins;
mod class;
mod class_list;
mod count;
mod fault;
mod finish;
mod layout;
mod line;
mod lists;
mod member_index;
mod members;
mod name_marks;
mod names;
mod parent_list;
mod table;
mod types;

pub use built_ins::{BuiltInName, built_in};
pub use class::{Dispatch, FileNames, Head, Own};
pub use class_list::Classes;
pub use count::Count;
pub use fault::{FaultKind, TypeFault, number, wrong};
pub use finish::Entered;
pub use names::ByName;
pub use parent_list::Parents;
pub use table::{Member, Table, Variable};
pub use types::{
    Named, declared_kind, is_plain, made_kind, may_be_static, result_kind, value_kind,
};
