ghost use Rattle.std.specs.Prelude.{◌≡◌};
ghost use Rattle.run_report.specs.declared.status.Status.TheVariants.{Memory as NoMemory};

use chuck_vm::Tally;
use fixed_point::Memory;

/// How a call of the program ended.
#[derive(Clone, Copy, PartialEq, Eq)]
pub enum Status {
    /// All was written, and no slice trapped.
    Done,
    /// The words were no command; nothing was read or written.
    Usage,
    /// A file was refused, and the line that says why was written.
    Refused,
    /// All was written, and some slice trapped.
    Trapped,
    /// A file couldn't be read; nothing was written.
    ReadFault,
    /// A write failed; what came before it was written, and some front of its own bytes.
    WriteFault,
    /// There was not enough memory; some of the first writes were done.
    Memory,
}

impl Status {
    ghost use Rattle.run_report.specs.Status.{status_code};
    ghost use Rattle.run_report.specs.Blocks.{tally_status};

    /// The status of a run of these numbers, which was reported whole.
    pub fn of_run(tally: &Tally) -> Status
        ensures { result ≡ tally_status tally.now }
    {
        if tally.traps > 0 {
            Status::Trapped
        } else {
            Status::Done
        }
    }

    /// The exit status of the process, 0 to 6.
    pub fn code(&self) -> u8
        ensures { result ≡ status_code self.now }
    {
        match self {
            Status::Done => 0,
            Status::Usage => 1,
            Status::Refused => 2,
            Status::Trapped => 3,
            Status::ReadFault => 4,
            Status::WriteFault => 5,
            Status::Memory => 6,
        }
    }
}

impl From<Memory> for Status {
    ghost from_gives = { λ _ status. status ≡ NoMemory };

    fn from(_: Memory) -> Self {
        Status::Memory
    }
}
