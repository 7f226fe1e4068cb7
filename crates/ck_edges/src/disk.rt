ghost use Rattle.std.specs.Prelude.{◌≡◌, ◌≤◌, ◌+◌, [], None, OnOk, IsErrOf, length};
ghost use Rattle.ck_edges.specs.Faults.{next_count};

use crate::fault::{FaultCount, ReadEnd};
use crate::shelf::Shelf;
use crate::whole::{end_of, read_whole};
use std::fs;
use std::rt::Files;

/// The files of the disk. It tells nothing of what they hold, and one counter is the count of
/// faults of every name.
#[derive(Drop)]
pub struct DiskShelf<'a, R: Files> {
    rt: &'a R,
    faults: FaultCount,
}

impl<'a, R: Files> DiskShelf<'a, R> {
    ghost use Rattle.ck_edges.specs.DiskShelf.{disk_faults};

    /// The disk of this runtime.
    pub fn new(rt: &'a R) -> DiskShelf<'a, R>
        ensures { disk_faults result ≡ 0 }
    {
        DiskShelf {
            rt,
            faults: FaultCount::new(),
        }
    }
}

/// Reads the file of this name.
fn read_file<R: Files>(rt: &R, name: &str, max: usize, into: &mut Vec<u8>) -> Result<(), ReadEnd>
    requires { into.old.items ≡ [] }
    ensures within { OnOk result (length into.new.items ≤ max) }
    ensures long { IsErrOf result ReadEnd.Long → length into.new.items ≡ max + 1 }
{
    let mut file = fs::open(rt, name).map_err(|error| end_of(&error))?;
    read_whole(&mut file, max, into)
}

impl<R: Files> Shelf for DiskShelf<'_, R> {
    ghost use Rattle.ck_edges.specs.DiskShelf.{disk_faults};

    ghost files = { λ _. None };

    ghost read_faults = { λ s _. s.faults };

    fn read(&mut self, name: &str, max: usize, into: &mut Vec<u8>) -> Result<(), ReadEnd>
        requires { into.old.items ≡ [] }
        ensures within { OnOk result (length into.new.items ≤ max) }
        ensures long { IsErrOf result ReadEnd.Long → length into.new.items ≡ max + 1 }
        ensures fault { IsErrOf result ReadEnd.Failed →
            disk_faults self.new ≡ next_count (disk_faults self.old) }
        ensures no_fault { (IsErrOf result ReadEnd.Failed → ⊥) →
            disk_faults self.new ≡ disk_faults self.old }
        ensures count { disk_faults self.old ≤ disk_faults self.new }
    {
        let end = read_file(self.rt, name, max, into);
        if let Err(ReadEnd::Failed) = end {
            self.faults.raise();
        }
        end
    }
}
