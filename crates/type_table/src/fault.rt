//! What is wrong with a program.
ghost use Rattle.std.specs.Prelude.{◌≡◌, ◌<◌, ◌^◌};
ghost use Rattle.type_table.specs.declared.fault.TypeFault.TheVariants.{Typing};

use fixed_point::Memory;
use std::alloc::{AllocError, AllocFailed};

/// What is wrong with a program. Of several faults at one place the first one here counts.
#[derive(Clone, Copy, PartialEq, Eq)]
pub enum FaultKind {
    /// A name that nothing visible has.
    UnknownName,
    /// A second declaration of a name.
    Duplicate,
    /// A type that doesn't fit.
    Mismatch,
    /// Arguments that a call doesn't take.
    Arguments,
    /// A target to which nothing can be assigned.
    NotAssignable,
    /// A call of what isn't a function.
    NotCallable,
    /// A parent that a class can't have, or a function that can't override another.
    BadClass,
    /// What can't stand where it stands.
    BadPlace,
}

/// Why a program is refused.
#[derive(Clone, Copy, PartialEq, Eq)]
pub enum TypeFault {
    /// A fault at a line of a file, by its place among the files.
    Typing {
        file: u32,
        line: u32,
        kind: FaultKind,
    },
    /// There was not enough memory.
    Memory(Memory),
}

impl From<AllocError> for TypeFault {
    ghost use Rattle.std.specs.Prelude.{◌≡◌};
    ghost use Rattle.fixed_point.specs.Wanting.{out_of_memory};
    ghost use Rattle.type_table.specs.declared.fault.TypeFault.TheVariants.{Memory as memory};

    ghost from_gives = { λ _ e. e ≡ memory out_of_memory };

    fn from(error: AllocError) -> Self {
        TypeFault::Memory(Memory::from(error))
    }
}

impl<T: Drop> From<AllocFailed<T>> for TypeFault {
    ghost use Rattle.std.specs.Prelude.{◌≡◌};
    ghost use Rattle.fixed_point.specs.Wanting.{out_of_memory};
    ghost use Rattle.type_table.specs.declared.fault.TypeFault.TheVariants.{Memory as memory};

    ghost from_gives = { λ _ e. e ≡ memory out_of_memory };

    fn from(failed: AllocFailed<T>) -> Self {
        TypeFault::Memory(Memory::from(failed))
    }
}

impl From<Memory> for TypeFault {
    ghost use Rattle.std.specs.Prelude.{◌≡◌};
    ghost use Rattle.fixed_point.specs.Wanting.{out_of_memory};
    ghost use Rattle.type_table.specs.declared.fault.TypeFault.TheVariants.{Memory as memory};

    ghost from_gives = { λ _ e. e ≡ memory out_of_memory };

    fn from(memory: Memory) -> Self {
        TypeFault::Memory(memory)
    }
}

/// A fault at a line of a file.
pub fn wrong(file: u32, line: u32, kind: FaultKind) -> TypeFault
    ensures { result ≡ Typing file line kind }
{
    TypeFault::Typing { file, line, kind }
}

/// The number of the next of so many.
pub fn number(length: usize) -> u32
    requires few { length < 2 ^ 32 }
    ensures { result ≡ length }
{
    length as u32
}
