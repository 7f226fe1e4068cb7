//! Reporting a run: its slices, its text beside a sheet of its samples, or its numbers.
//!
//! Its one contract is that of [`run_code`]: the run of a code is made in blocks of 4,096 samples,
//! and the steps of its answer, writes and those of a sheet, are carried out in their order; where
//! one failed, or memory did, some of the first of them. What the commands `wakes`, `render`,
//! `stats` and `load` answer over a program is told by it.
#![tactic(auto)]

mod block;
mod cut;
mod pressing;
mod report;
mod status;
mod writing;

pub use chuck_vm::Tally;
pub use cut::Cut;
pub use pressing::run_code;
pub use report::Report;
pub use status::Status;
