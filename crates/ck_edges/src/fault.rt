ghost use Rattle.std.specs.Prelude.{◌≡◌, ◌≤◌, ℕ, OnOk, OnErr};
ghost use Rattle.fixed_point.specs.Wanting.{out_of_memory};
ghost use Rattle.ck_edges.specs.Faults.{next_count};

use fixed_point::Memory;
use std::alloc::AllocError;
use std::error::Error;
use std::fmt;
use std::marker::Model;

/// A write, or a call of a press, that the edge did not carry out.
#[derive(Clone, Copy, Debug, PartialEq, Eq)]
pub struct Failed;

impl fmt::Display for Failed {
    fn fmt<W: fmt::Write>(&self, f: &mut fmt::Formatter<W>) -> fmt::Result {
        f.write_str("the write failed")
    }
}

impl Error for Failed {}

/// Why a read gave no file.
#[derive(Clone, Copy, Debug, PartialEq, Eq)]
pub enum ReadEnd {
    /// The shelf has no such file, or couldn't read it.
    Failed,
    /// The file is longer than the reader takes.
    Long,
    /// There was not enough memory.
    Memory(Memory),
}

impl fmt::Display for ReadEnd {
    fn fmt<W: fmt::Write>(&self, f: &mut fmt::Formatter<W>) -> fmt::Result {
        f.write_str(match self {
            ReadEnd::Failed => "the read failed",
            ReadEnd::Long => "the file is too long",
            ReadEnd::Memory(_) => "out of memory",
        })
    }
}

impl Error for ReadEnd {}

impl From<AllocError> for ReadEnd {
    ghost use Rattle.ck_edges.specs.declared.fault.ReadEnd.{ReadEnd};

    ghost from_gives = { λ _ end. end ≡ ReadEnd.Memory out_of_memory };

    fn from(error: AllocError) -> Self {
        ReadEnd::Memory(Memory::from(error))
    }
}

/// A count of faults. It never falls, and stands still at the greatest `u64`.
#[derive(Drop)]
pub struct FaultCount {
    count: u64,
}

impl Model for FaultCount {
    ghost Value = { ℕ };

    ghost view = { λ c. c.count };
}

impl FaultCount {
    /// No faults so far.
    pub fn new() -> FaultCount
        ensures { result ≡ 0 }
    {
        FaultCount { count: 0 }
    }

    /// Counts one fault more.
    pub fn raise(&mut self)
        ensures next { self.new ≡ next_count self.old }
        ensures count { self.old ≤ self.new }
    {
        self.count = self.count.saturating_add(1);
    }

    /// Counts a call that ended so, where it failed, and gives its end back.
    pub fn note(&mut self, end: Result<(), Failed>) -> Result<(), Failed>
        ensures same_end { result ≡ end }
        ensures fault { OnErr end (self.new ≡ next_count self.old) }
        ensures no_fault { OnOk end (self.new ≡ self.old) }
        ensures count { self.old ≤ self.new }
    {
        if end.is_err() {
            self.raise();
        }
        end
    }
}
