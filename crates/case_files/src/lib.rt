//! The cases of a case file.
//!
//! A case file says which words chuckfix is given over which files, and what it has to answer.
//! [`read_cases`] reads such a text, a line at a time, or names the first line with which it isn't
//! in the form of one. The crate plays nothing, and knows nothing of the language.
//!
//! ```text
//! # a comment, from the first column on
//! case a loop waits longer each time
//! file a.ck
//! | 0 => int i;
//! | while (i < 3) { (i + 1)::samp => now; i + 1 => i; }
//! run wakes 10 a.ck
//! status 0
//! out
//! | 0 1
//! | 1 1
//! | 3 1
//! | 6 1
//! ```
//!
//! A case has files, and then runs over these files. A name without a `file` line is absent. Each
//! command of a run is played over edges of its own.
//!
//! | Line | Says |
//! |---|---|
//! | `case NAME` | a case begins; no other of its file has the name |
//! | `file NAME` | a file; the pieces below are its bytes, and without any it is empty |
//! | `file-of PIECE` | the same, where no line can hold the name |
//! | `run WORD WORD ..` | a command, cut at spaces |
//! | `word TEXT` | one more word of the last command, with its spaces |
//! | `word-of PIECE` | the same, where no line can hold the word |
//! | `bad-read N` | the Nth read fails |
//! | `bad-write N`, `bad-write N after M` | the Nth write fails, with nothing or M bytes taken |
//! | `bad-press N`, `bad-press N after M` | the Nth call of the press fails, a write with nothing or M bytes taken |
//! | `room N` | the output takes N bytes, in place of 65,536, and so does the press |
//! | `status N` | the exit status; each run has one |
//! | `tally N N N N N N` | the numbers that are left of the run, those of `stats` in their order |
//! | `out` | the pieces below are all that is written; without it that is nothing |
//! | `write` | in place of `out`, once for each write: the pieces below are what it took |
//! | `sheet NAME` | a sheet is pressed and ended, and the pieces below are its bytes; without it there is none |
//! | `unended NAME` | the same of a sheet that stays unended |
//!
//! Commands that follow one another share the lines below them, and answer alike.
//!
//! Pieces: `| TEXT` is the text and the end of its line, `|- TEXT` the text alone, `hex c3 28`
//! bytes of two digits each, and `samples -1 258` samples in two bytes each, the low one first.
//! `repeat N PIECE` is one of these N times over, and `count A B PIECE` one of them for each number
//! from A to B, which stands in place of every `#` in it.
#![tactic(auto)]

mod case;
mod line;
mod piece;
mod reading;
mod wrong;

pub use case::{Case, Run, Sheet};
pub use reading::read_cases;
pub use wrong::{Fault, Wrong};
