//! Why a part of a file was not read.
use ck_lexer::Token;
use fixed_point::Memory;
use std::alloc::{AllocError, AllocFailed};

/// Why a part of a file was not read.
#[derive(Clone, Copy)]
pub enum Fault {
    /// So many tokens are left from the one that cannot come.
    Syntax(usize),
    /// So many tokens are left from the one that stands too deep.
    TooDeep(usize),
    /// There was not enough memory.
    Memory(Memory),
}

/// A part, and the tokens behind it; or why it was not read.
pub type Parsed<'a, T> = Result<(T, &'a [Token]), Fault>;

/// A part, the tokens behind it, and the depth there; or why it was not read.
pub type ParsedTo<'a, T> = Result<(T, &'a [Token], u32), Fault>;

impl From<AllocError> for Fault {
    ghost use Rattle.std.specs.Prelude.{◌≡◌};
    ghost use Rattle.fixed_point.specs.Wanting.{out_of_memory};
    ghost use Rattle.parse_exprs.specs.declared.fault.Fault.{Fault};

    ghost from_gives = { λ _ e. e ≡ Fault.Memory out_of_memory };

    fn from(error: AllocError) -> Self {
        Fault::Memory(Memory::from(error))
    }
}

impl<T: Drop> From<AllocFailed<T>> for Fault {
    ghost use Rattle.std.specs.Prelude.{◌≡◌};
    ghost use Rattle.fixed_point.specs.Wanting.{out_of_memory};
    ghost use Rattle.parse_exprs.specs.declared.fault.Fault.{Fault};

    ghost from_gives = { λ _ e. e ≡ Fault.Memory out_of_memory };

    fn from(error: AllocFailed<T>) -> Self {
        Fault::Memory(Memory::from(error))
    }
}

impl From<Memory> for Fault {
    ghost use Rattle.std.specs.Prelude.{◌≡◌};
    ghost use Rattle.fixed_point.specs.Wanting.{out_of_memory};
    ghost use Rattle.parse_exprs.specs.declared.fault.Fault.{Fault};

    ghost from_gives = { λ _ e. e ≡ Fault.Memory out_of_memory };

    fn from(memory: Memory) -> Self {
        Fault::Memory(memory)
    }
}
