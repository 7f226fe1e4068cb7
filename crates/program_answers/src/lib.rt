//! What a command answers over a program, or over a file that is refused.
//!
//! Its one contract: each function takes the steps of such an answer at the edges, or some of the
//! first of them, and gives its status. `chuck_driver` calls them once the files are read and
//! checked.
#![tactic(auto)]

mod programs;
mod typing;
mod writing;

pub use programs::answer_program;
pub use typing::refuse_types;
pub use writing::{refuse, refuse_at};
