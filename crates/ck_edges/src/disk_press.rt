ghost use Rattle.std.specs.Prelude.{◌≡◌, ◌≤◌, None, OnOk, OnErr, is_some, true, false};
ghost use Rattle.std.specs.Io.KnownBytes.{Keeps};
ghost use Rattle.ck_edges.specs.Faults.{next_count};

use crate::fault::{Failed, FaultCount};
use crate::press::Press;
use crate::whole::write_whole;
use std::fs;
use std::fs::OpenFile;
use std::io::{ErrorKind, Write};
use std::rt::Files;

/// The files of the disk as sheets: each is made anew when it is begun, and stays open until it is
/// ended. It tells only whether a sheet stands unended.
#[derive(Drop)]
pub struct DiskPress<'a, R: Files> {
    rt: &'a R,
    sheet: Option<R::File>,
    faults: FaultCount,
}

impl<'a, R: Files> DiskPress<'a, R> {
    ghost use Rattle.ck_edges.specs.DiskPress.{has_sheet, press_failures};

    /// The disk of this runtime, on which no sheet stands unended.
    pub fn new(rt: &'a R) -> DiskPress<'a, R>
        ensures closed { has_sheet result ≡ false }
        ensures unfailed { press_failures result ≡ 0 }
    {
        DiskPress {
            rt,
            sheet: None,
            faults: FaultCount::new(),
        }
    }
}

/// Has the system keep what was written. A pipe or a device has nothing to keep.
pub(crate) fn settle<F: Write + OpenFile>(file: &mut F) -> Result<(), Failed>
    ensures kept { OnOk result (Keeps (F.contents file.old) (F.contents file.new)) }
{
    file.flush().map_err(|_| Failed)?;
    match file.sync_all() {
        Err(error) if error.kind() != ErrorKind::InvalidInput => Err(Failed),
        _ => Ok(()),
    }
}

impl<R: Files> Press for DiskPress<'_, R> {
    ghost use Rattle.ck_edges.specs.DiskPress.{has_sheet, press_failures, HasTaken};

    ghost sheets = { λ _. None };

    ghost is_open = { λ s. is_some s.sheet };

    ghost press_faults = { λ s. s.faults };

    /// Makes the file of this name, or empties the one that is there.
    fn begin(&mut self, name: &str) -> Result<(), Failed>
        requires { has_sheet self.old ≡ false }
        ensures open { OnOk result (has_sheet self.new ≡ true) }
        ensures none { OnErr result (has_sheet self.new ≡ false) }
        ensures fault { OnErr result
            (press_failures self.new ≡ next_count (press_failures self.old)) }
        ensures no_fault { OnOk result (press_failures self.new ≡ press_failures self.old) }
        ensures count { press_failures self.old ≤ press_failures self.new }
    {
        match fs::create(self.rt, name) {
            Ok(file) => {
                self.sheet = Some(file);
                Ok(())
            }
            Err(_) => {
                self.faults.raise();
                Err(Failed)
            }
        }
    }

    fn write(&mut self, bytes: &[u8]) -> Result<(), Failed>
        requires { has_sheet self.old ≡ true }
        ensures taken { OnOk result
            (HasTaken R.File.contents self.old.sheet self.new.sheet bytes.now) }
        ensures open { has_sheet self.new ≡ true }
        ensures fault { OnErr result
            (press_failures self.new ≡ next_count (press_failures self.old)) }
        ensures no_fault { OnOk result (press_failures self.new ≡ press_failures self.old) }
        ensures count { press_failures self.old ≤ press_failures self.new }
    {
        let end = match &mut self.sheet {
            Some(file) => write_whole(file, bytes),
            None => unreachable!(),
        };
        self.faults.note(end)
    }

    fn end(&mut self) -> Result<(), Failed>
        requires { has_sheet self.old ≡ true }
        ensures closed { OnOk result (has_sheet self.new ≡ false) }
        ensures none { OnErr result (has_sheet self.new ≡ true) }
        ensures fault { OnErr result
            (press_failures self.new ≡ next_count (press_failures self.old)) }
        ensures no_fault { OnOk result (press_failures self.new ≡ press_failures self.old) }
        ensures count { press_failures self.old ≤ press_failures self.new }
    {
        let end = match &mut self.sheet {
            Some(file) => settle(file),
            None => unreachable!(),
        };
        if end.is_ok() {
            self.sheet = None;
        }
        self.faults.note(end)
    }
}
