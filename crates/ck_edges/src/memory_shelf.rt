ghost use Rattle.std.specs.Prelude.{◌≡◌, ◌⊎◌, ◌≤◌, ◌<◌, ◌↔◌, [], Some, None};
ghost use Rattle.std.specs.Prelude.{length, OnOk, IsErrOf, Contains};
ghost use Rattle.std.specs.Option.{option_map};
ghost use Rattle.ck_edges.specs.Faults.{next_count};
ghost use Rattle.ck_edges.specs.Shelf.{IsLonger};
ghost use Rattle.ck_edges.specs.Named.{file_named};

use crate::fault::{FaultCount, ReadEnd};
use crate::shelf::Shelf;

/// A shelf of files in memory, which fails where it is told to.
///
/// It tells its files. One counter is the count of faults of every name.
#[derive(Drop)]
pub struct MemShelf {
    files: Vec<(String, Vec<u8>)>,
    fails: Vec<u64>,
    calls: u64,
    faults: FaultCount,
}

impl MemShelf {
    ghost use Rattle.ck_edges.specs.MemShelf.{shelf_files, failing_reads, reads_made, reads_failed};

    /// A shelf with these files, each under its name; of two with one name the first counts. The
    /// reads whose numbers are listed in `fails`, counted from 1, will fail.
    pub fn new(files: Vec<(String, Vec<u8>)>, fails: Vec<u64>) -> MemShelf
        ensures files { shelf_files result ≡ files.items }
        ensures fails { failing_reads result ≡ fails.items }
        ensures unread { reads_made result ≡ 0 }
        ensures unfailed { reads_failed result ≡ 0 }
    {
        MemShelf {
            files,
            fails,
            calls: 0,
            faults: FaultCount::new(),
        }
    }
}

/// The bytes of the first file of this name.
pub(crate) fn find<'a>(files: &'a [(String, Vec<u8>)], name: &str) -> Option<&'a [u8]>
    ensures { option_map (λ bytes. bytes.now) result ≡ file_named files.now name.now }
{
    for (own, bytes) in files {
        if own.as_str() == name {
            return Some(bytes.as_slice());
        }
    }
    None
}

/// Copies a file that is there, if it has at most `max` bytes.
pub(crate) fn copy(file: &[u8], max: usize, into: &mut Vec<u8>) -> Result<(), ReadEnd>
    requires { into.old.items ≡ [] }
    ensures copied { OnOk result (into.new.items ≡ file.now) }
    ensures within { OnOk result (length file.now ≤ max) }
    ensures not_failed { IsErrOf result ReadEnd.Failed → ⊥ }
    ensures long { IsErrOf result ReadEnd.Long → max < length file.now }
{
    if file.len() > max {
        return Err(ReadEnd::Long);
    }
    into.extend_from_slice(file)?;
    Ok(())
}

impl Shelf for MemShelf {
    ghost use Rattle.ck_edges.specs.MemShelf.{shelf_files, failing_reads, reads_made, reads_failed};

    ghost files = { λ s. Some (file_named s.files.items) };

    ghost read_faults = { λ s _. s.faults };

    fn read(&mut self, name: &str, max: usize, into: &mut Vec<u8>) -> Result<(), ReadEnd>
        requires { into.old.items ≡ [] }
        ensures same_files { shelf_files self.new ≡ shelf_files self.old }
        ensures same_fails { failing_reads self.new ≡ failing_reads self.old }
        ensures counted { reads_made self.new ≡ next_count (reads_made self.old) }
        ensures given { OnOk result
            (file_named (shelf_files self.old) name.now ≡ Some into.new.items) }
        ensures within { OnOk result (length into.new.items ≤ max) }
        ensures failed { IsErrOf result ReadEnd.Failed ↔
            (Contains (failing_reads self.old) (reads_made self.new)
            ⊎ (file_named (shelf_files self.old) name.now ≡ None)) }
        ensures fault { IsErrOf result ReadEnd.Failed →
            reads_failed self.new ≡ next_count (reads_failed self.old) }
        ensures no_fault { (IsErrOf result ReadEnd.Failed → ⊥) →
            reads_failed self.new ≡ reads_failed self.old }
        ensures long { IsErrOf result ReadEnd.Long →
            IsLonger (Some (file_named (shelf_files self.old))) name.now max }
        ensures count { reads_failed self.old ≤ reads_failed self.new }
    {
        self.calls = self.calls.saturating_add(1);
        if self.fails.contains(&self.calls) {
            self.faults.raise();
            return Err(ReadEnd::Failed);
        }
        match find(&self.files, name) {
            Some(file) => copy(file, max, into),
            None => {
                self.faults.raise();
                Err(ReadEnd::Failed)
            }
        }
    }
}
