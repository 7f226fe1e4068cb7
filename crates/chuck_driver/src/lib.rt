//! The commands of the program, from words to lines.
//!
//! Its one contract is that of [`chuckfix`]: for every list of words and every set of files it
//! answers the status, and takes exactly the steps at the edges, that the whole answer to these
//! words over these files has; where a read or a write failed, or memory did, some of the first of
//! these steps, with that status. `main` calls it over the disk and standard output.
#![tactic(auto)]

mod driver;
pub mod laws;

pub use command_inputs::{Command, command};
pub use driver::chuckfix;
pub use run_report::{Status, Tally};
