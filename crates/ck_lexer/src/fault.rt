ghost use Rattle.std.specs.Prelude.{◌≡◌};
ghost use Rattle.fixed_point.specs.Wanting.{out_of_memory};

use fixed_point::Memory;
use std::alloc::AllocFailed;
use thiserror::Error;

/// Why a file has no tokens.
#[derive(Clone, Copy, Debug, PartialEq, Eq, Error)]
pub enum LexFault {
    /// At the byte `at`, counted from 0, neither a space nor a comment nor a token begins. It
    /// stands in the line `line`, counted from 1.
    #[error("line {line}: no token begins at byte {at}")]
    Lex { at: u32, line: u32 },
    /// There was not enough memory.
    #[error("out of memory")]
    Memory(Memory),
}

impl From<Memory> for LexFault {
    ghost use Rattle.ck_lexer.specs.declared.fault.LexFault.{LexFault};

    ghost from_gives = { λ _ e. e ≡ LexFault.Memory out_of_memory };

    fn from(memory: Memory) -> Self {
        LexFault::Memory(memory)
    }
}

impl<T: Drop> From<AllocFailed<T>> for LexFault {
    ghost use Rattle.ck_lexer.specs.declared.fault.LexFault.{LexFault};

    ghost from_gives = { λ _ e. e ≡ LexFault.Memory out_of_memory };

    fn from(error: AllocFailed<T>) -> Self {
        LexFault::Memory(Memory::from(error))
    }
}
