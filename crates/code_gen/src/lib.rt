//! The compiler of functions and whole programs: from typed trees to code.
//!
//! Its one contract: the code is that of the scheme, and on every function, arguments and stores
//! it does what the trees do: the same outcome, store, acts, turns and place of a trap. Each
//! program has code; only memory may be wanting. `program_answers` compiles each program by it.
#![tactic(auto)]

mod program;

pub use program::generate;
