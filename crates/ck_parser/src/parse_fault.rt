//! Why tokens are refused.
use fixed_point::Memory;
use thiserror::Error;

/// Why tokens are no file that may be compiled.
#[derive(Clone, Copy, Debug, PartialEq, Eq, Error)]
pub enum ParseFault {
    /// The first token with which no file goes on stands in this line, counted from 1. No token
    /// before it stands too deep.
    #[error("line {0}: this token cannot come here")]
    Syntax(u32),
    /// A file goes on with each token up to one in this line, the first that stands deeper than
    /// the limit.
    #[error("line {0}: nested too deep")]
    TooDeep(u32),
    /// There was not enough memory.
    #[error("out of memory")]
    Memory(Memory),
}
