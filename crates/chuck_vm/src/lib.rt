//! The machine of many shreds: which one runs its next slice, what its acts and its request do, and
//! when a sample is made.
//!
//! Its one contract: a [`Vm`] stands for the run of its code after so many samples, and
//! [`Vm::render`] adds exactly what the run tells on the way to a later sample: the samples, the
//! text, and which slices ran. By [`laws`] it may be asked in any pieces. [`Vm::tally`] gives the
//! numbers of the run so far.
#![tactic(auto)]

mod acts;
pub mod laws;
mod machine;
mod report;
mod run;
mod tally;
mod vm;
mod wake;

pub use report::{file_name, trap_line};
pub use tally::Tally;
pub use vm::Vm;
pub use wake::{TrapAt, Wake};
