//! What is wrong with a case file.

use fixed_point::Memory;
use std::alloc::{AllocError, AllocFailed};
use thiserror::Error;

/// What is wrong with a line of a case file.
#[derive(Clone, Copy, Debug, PartialEq, Eq, Error)]
pub enum Wrong {
    /// A line, or a piece in it, begins in no way that a case file has, or more stands behind `out`
    /// or `write`.
    #[error("no line begins so")]
    Unknown,
    /// A number or a sample is missing or one too many, has another byte than a decimal digit (a
    /// sample may have a sign), or is past its range; or a `count` ends before it begins.
    #[error("a number is wanted")]
    Number,
    /// A byte of `hex` isn't two hexadecimal digits.
    #[error("bytes of two hexadecimal digits are wanted")]
    Hex,
    /// The bytes that a piece gives for a word or a name aren't UTF-8.
    #[error("the bytes of a word or a name are no text")]
    Text,
    /// The file ends without a case.
    #[error("the file has no case")]
    NoCases,
    /// `case` stands without a name.
    #[error("the case has no name")]
    NoName,
    /// A case has the name of one above it.
    #[error("another case of the file has this name")]
    SameName,
    /// What belongs to a case stands above the first `case`.
    #[error("no case has begun")]
    NoCase,
    /// What belongs to a run stands above the first `run` of its case, or a word behind no command.
    #[error("no run has begun")]
    NoRun,
    /// A file of a case stands behind a run.
    #[error("a file stands behind a run of its case")]
    LateFile,
    /// A file has the name of one above it in the same case.
    #[error("the case has this file already")]
    SameFile,
    /// A piece stands where no file, no output and no sheet takes its bytes.
    #[error("no file, no output and no sheet stands above these bytes")]
    NoPlace,
    /// A run has a second `status`, `tally` or `out`, or both `out` and `write`.
    #[error("the run has this already")]
    Twice,
    /// A case ends without a run.
    #[error("the case has no run")]
    NoRuns,
    /// A run ends without a status.
    #[error("the run has no status")]
    NoStatus,
    /// There was not enough memory.
    #[error("memory was wanting")]
    Memory(Memory),
}

impl From<AllocError> for Wrong {
    fn from(error: AllocError) -> Self {
        Wrong::Memory(Memory::from(error))
    }
}

impl<T: Drop> From<AllocFailed<T>> for Wrong {
    fn from(error: AllocFailed<T>) -> Self {
        Wrong::Memory(Memory::from(error))
    }
}

/// What is wrong with a case file, and where.
#[derive(Clone, Copy)]
pub struct Fault {
    /// The number of the line, from 1.
    pub line: usize,
    pub wrong: Wrong,
}
