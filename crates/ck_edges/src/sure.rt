ghost use Rattle.std.specs.Prelude.{◌≡◌, [], ◌≤◌, ◌+◌, ◌↔◌, Some, None, true, false};
ghost use Rattle.std.specs.Prelude.{min, length, OnOk, IsOk, IsErrOf, if◌then◌else◌, is_some};
ghost use Rattle.ck_edges.specs.Faults.{last_count};
ghost use Rattle.ck_edges.specs.Shelf.{IsLonger};
ghost use Rattle.ck_edges.specs.Named.{file_named};

use crate::fault::{Failed, ReadEnd};
use crate::memory_shelf::{copy, find};
use crate::press::Press;
use crate::shelf::Shelf;
use crate::sink::Sink;

/// A shelf of files in memory that fails on an absent name only.
///
/// It tells its files. The count of faults of a name that is there is always 0, that of any other
/// always stands at its end.
#[derive(Drop)]
pub struct SureShelf {
    files: Vec<(String, Vec<u8>)>,
}

impl SureShelf {
    ghost use Rattle.ck_edges.specs.SureShelf.{sure_files};

    /// A shelf with these files, each under its name; of two with one name the first counts.
    pub fn new(files: Vec<(String, Vec<u8>)>) -> SureShelf
        ensures { sure_files result ≡ files.items }
    {
        SureShelf { files }
    }
}

impl Shelf for SureShelf {
    ghost use Rattle.ck_edges.specs.SureShelf.{sure_files};

    ghost files = { λ s. Some (file_named s.files.items) };

    ghost read_faults = { λ s name.
        if is_some (file_named s.files.items name) then 0 else last_count };

    fn read(&mut self, name: &str, max: usize, into: &mut Vec<u8>) -> Result<(), ReadEnd>
        requires { into.old.items ≡ [] }
        ensures same_files { sure_files self.new ≡ sure_files self.old }
        ensures given { OnOk result
            (file_named (sure_files self.old) name.now ≡ Some into.new.items) }
        ensures within { OnOk result (length into.new.items ≤ max) }
        ensures failed { IsErrOf result ReadEnd.Failed ↔
            (file_named (sure_files self.old) name.now ≡ None) }
        ensures long { IsErrOf result ReadEnd.Long →
            IsLonger (Some (file_named (sure_files self.old))) name.now max }
    {
        match find(&self.files, name) {
            Some(file) => copy(file, max, into),
            None => Err(ReadEnd::Failed),
        }
    }
}

/// A sink that takes all bytes and keeps none. It tells only how many it has taken.
#[derive(Drop)]
pub struct SureSink {
    taken: u64,
}

impl SureSink {
    ghost use Rattle.ck_edges.specs.SureSink.{bytes_taken};

    /// A sink that has taken nothing yet.
    pub fn new() -> SureSink
        ensures { bytes_taken result ≡ 0 }
    {
        SureSink { taken: 0 }
    }

    /// How many bytes it has taken; the count stands still at the greatest `u64`.
    pub fn taken(&self) -> u64
        ensures { result ≡ bytes_taken self.now }
    {
        self.taken
    }
}

impl Sink for SureSink {
    ghost use Rattle.ck_edges.specs.SureSink.{bytes_taken};

    ghost written = { λ _. None };

    ghost write_faults = { λ _. 0 };

    fn write(&mut self, bytes: &[u8]) -> Result<(), Failed>
        ensures ok { IsOk result }
        ensures taken { bytes_taken self.new
            ≡ min (bytes_taken self.old + length bytes.now) last_count }
    {
        self.taken = self.taken.saturating_add(bytes.len() as u64);
        Ok(())
    }
}

/// A press that takes all sheets and keeps none. It tells only whether a sheet stands unended.
#[derive(Drop)]
pub struct SurePress {
    open: bool,
}

impl SurePress {
    ghost use Rattle.ck_edges.specs.SurePress.{has_open};

    /// A press on which no sheet stands.
    pub fn new() -> SurePress
        ensures { has_open result ≡ false }
    {
        SurePress { open: false }
    }
}

impl Press for SurePress {
    ghost use Rattle.ck_edges.specs.SurePress.{has_open};

    ghost sheets = { λ _. None };

    ghost is_open = { λ s. s.open };

    ghost press_faults = { λ _. 0 };

    fn begin(&mut self, _name: &str) -> Result<(), Failed>
        ensures ok { IsOk result }
        ensures open { has_open self.new ≡ true }
    {
        self.open = true;
        Ok(())
    }

    fn write(&mut self, _bytes: &[u8]) -> Result<(), Failed>
        ensures ok { IsOk result }
        ensures open { has_open self.new ≡ has_open self.old }
    {
        Ok(())
    }

    fn end(&mut self) -> Result<(), Failed>
        ensures ok { IsOk result }
        ensures closed { has_open self.new ≡ false }
    {
        self.open = false;
        Ok(())
    }
}
