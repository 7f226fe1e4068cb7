//! The typing of whole programs.
//!
//! Its one contract is that of [`check`]: it gives exactly the typed program of its files, or
//! exactly the first fault of the walk over them, or memory was wanting. Files go one after
//! another; the names of each are entered first, and then its statements, the bodies of its
//! functions and the members of its classes are typed in text order. The driver asks it.
#![tactic(auto)]

mod functions;
mod heads;
mod items;
mod jumps;
mod print;
mod programs;
mod simple;
mod statements;
mod walk;

pub use programs::check;
