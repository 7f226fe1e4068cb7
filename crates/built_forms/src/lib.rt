//! Which programs can be run: those without a form that is typed and not run yet.
//!
//! Such forms are `for` over the items of an array, `auto`, a constructor, and arguments behind a
//! declared name or of `new`. The crate goes once they are run.
#![tactic(auto)]

mod exprs;
mod files;
mod stmts;

pub use files::is_built;
