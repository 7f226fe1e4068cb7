ghost use Rattle.std.specs.Prelude.{◌≡◌};
ghost use Rattle.fixed_point.specs.Wanting.{out_of_memory};
ghost use Rattle.value_ops.specs.declared.end.OpEnd.TheVariants.{Memory as NoMemory};

use ck_values::Trap;
use fixed_point::Memory;
use std::alloc::AllocError;

/// Why an operation gives no value.
#[derive(Clone, Copy, PartialEq, Eq)]
pub enum OpEnd {
    /// The shred traps.
    Trap(Trap),
    /// There is not enough memory.
    Memory(Memory),
}

impl From<Memory> for OpEnd {
    ghost from_gives = { λ _ end. end ≡ NoMemory out_of_memory };

    fn from(memory: Memory) -> Self {
        OpEnd::Memory(memory)
    }
}

impl From<AllocError> for OpEnd {
    ghost from_gives = { λ _ end. end ≡ NoMemory out_of_memory };

    fn from(error: AllocError) -> Self {
        OpEnd::Memory(Memory::from(error))
    }
}
