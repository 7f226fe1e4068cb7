//! Tests of the whole command, as rows of data.
//!
//! Plays each case of a case file (`case_files`) over edges in memory, and tells what was wanted
//! and what came of a case that fails. It knows nothing of the language.
#![tactic(auto)]

mod playing;
mod reports;
mod shown;
mod tape;

pub use reports::Report;
