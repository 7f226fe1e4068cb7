//! The inputs of a command: its words, and the files that they name.
//!
//! Its one contract: [`command`] gives the command of a list of words, or none where they are no
//! command; [`read_files`] finds of the files of a command exactly what stands on the shelf, the
//! first that is too long, or a fault of the shelf; and [`trees`] gives the trees that the files
//! say, or exactly the first fault of the first file that is refused. `chuck_driver` reads by it.
#![tactic(auto)]

mod commands;
mod reading;
mod sense;
mod sources;
mod words;

pub use commands::Command;
pub use reading::{ReadStop, read_files};
pub use sense::Wrong;
pub use sources::{SourceStop, trees};
pub use words::{command, file_names, sheet_name};
