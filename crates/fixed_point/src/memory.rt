ghost use Rattle.std.specs.Prelude.{◌≡◌};

use std::alloc::{AllocError, AllocFailed};
use std::error::Error;
use std::fmt;

/// There was not enough memory: the one answer that any call which allocates may give instead of
/// its own.
///
/// It has no contents, and nothing makes one but a refused allocation, by its `From`. So no other
/// cause can be answered by it.
#[derive(Clone, Copy, Debug, PartialEq, Eq)]
pub struct Memory {
    contents: (),
}

impl fmt::Display for Memory {
    fn fmt<W: fmt::Write>(&self, f: &mut fmt::Formatter<W>) -> fmt::Result {
        f.write_str("out of memory")
    }
}

impl Error for Memory {}

impl From<AllocError> for Memory {
    fn from(_: AllocError) -> Self {
        Memory { contents: () }
    }
}

impl<T: Drop> From<AllocFailed<T>> for Memory {
    fn from(_: AllocFailed<T>) -> Self {
        Memory { contents: () }
    }
}

/// A value that was to be kept and that there was no memory for, handed back.
#[derive(Drop)]
pub struct HandedBack<T> {
    /// The value.
    pub value: T,
    /// The want of memory.
    pub memory: Memory,
}

impl<T> From<AllocFailed<T>> for HandedBack<T> {
    ghost from_gives = { λ failed back. back.value ≡ failed.value };

    fn from(failed: AllocFailed<T>) -> Self {
        HandedBack {
            value: failed.value,
            memory: Memory { contents: () },
        }
    }
}

impl<T: Drop> From<HandedBack<T>> for Memory {
    fn from(back: HandedBack<T>) -> Self {
        back.memory
    }
}
