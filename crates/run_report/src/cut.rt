//! Why the steps of an answer weren't all done.
ghost use Rattle.std.specs.Prelude.{◌≡◌};
ghost use Rattle.fixed_point.specs.Wanting.{out_of_memory};
ghost use Rattle.run_report.specs.declared.cut.Cut.TheVariants as cuts;

use crate::status::Status;
use ck_edges::Failed;
use fixed_point::Memory;

/// Why the steps of an answer weren't all done.
#[derive(Clone, Copy, PartialEq, Eq)]
pub enum Cut {
    /// One failed: a write, or a call of the press.
    WriteFault,
    /// There was not enough memory.
    Memory(Memory),
}

impl Cut {
    ghost use Rattle.run_report.specs.Ends.{status_of_cut};

    /// The status of a call that was cut short so.
    pub fn status(self) -> Status
        ensures { result ≡ status_of_cut self }
    {
        match self {
            Cut::WriteFault => Status::WriteFault,
            Cut::Memory(memory) => Status::from(memory),
        }
    }
}

impl From<Failed> for Cut {
    ghost from_gives = { λ _ cut. cut ≡ cuts.WriteFault };

    fn from(_: Failed) -> Self {
        Cut::WriteFault
    }
}

impl From<Memory> for Cut {
    ghost from_gives = { λ _ cut. cut ≡ cuts.Memory out_of_memory };

    fn from(memory: Memory) -> Self {
        Cut::Memory(memory)
    }
}
