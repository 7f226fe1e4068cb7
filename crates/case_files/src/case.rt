//! Cases, and what they say of a run.

use std::alloc::Global;

/// The bytes that a run may write, and press, where it doesn't say.
const ROOM: usize = 65_536;

/// Files, and commands over them.
#[derive(Drop)]
pub struct Case {
    /// Its name, which no other case of its file has.
    pub name: String,
    /// The number of its first line, from 1.
    pub line: usize,
    /// The names and the bytes of its files, each name once.
    pub files: Vec<(String, Vec<u8>)>,
    /// Its runs, at least one.
    pub runs: Vec<Run>,
}

/// Commands that are to answer alike, each over edges of its own.
#[derive(Drop)]
pub struct Run {
    /// The number of its first line, from 1.
    pub line: usize,
    /// The words of each command, without the name of the program.
    pub commands: Vec<Vec<String>>,
    /// The numbers of the reads that fail.
    pub bad_reads: Vec<u64>,
    /// The numbers of the writes that fail, each with the bytes that it takes before it does.
    pub bad_writes: Vec<(u64, usize)>,
    /// The numbers of the calls of the press that fail, each with the bytes that it takes before it
    /// does where it is a write.
    pub bad_presses: Vec<(u64, usize)>,
    /// The bytes that the output takes, and as many the press.
    pub room: usize,
    /// The exit status that is wanted, which each run of a case has.
    pub status: Option<u8>,
    /// The numbers of the run that it is to leave, if it says: those of `stats`, in their order.
    pub tally: Option<[u64; 6]>,
    /// What it is to write, where it says; else nothing.
    pub(crate) wanted: Option<Wanted>,
    /// The sheets that it is to press, in order.
    pub sheets: Vec<Sheet>,
}

/// A sheet of a press.
#[derive(Drop)]
pub struct Sheet {
    pub name: String,
    pub bytes: Vec<u8>,
    /// Whether it is ended.
    pub ended: bool,
}

/// What a run is to write.
#[derive(Drop)]
pub(crate) struct Wanted {
    pub(crate) bytes: Vec<u8>,
    /// Where each of its writes begins, if the case says.
    pub(crate) starts: Option<Vec<usize>>,
}

impl Run {
    /// A run without commands, on which nothing is set.
    pub(crate) fn new(alloc: Global, line: usize) -> Run {
        Run {
            line,
            commands: Vec::new(alloc),
            bad_reads: Vec::new(alloc),
            bad_writes: Vec::new(alloc),
            bad_presses: Vec::new(alloc),
            room: ROOM,
            status: None,
            tally: None,
            wanted: None,
            sheets: Vec::new(alloc),
        }
    }

    /// The bytes that it is to write.
    pub fn wanted_bytes(&self) -> &[u8] {
        match &self.wanted {
            Some(wanted) => wanted.bytes.as_slice(),
            None => &[],
        }
    }

    /// The bytes that stand before each of its writes, if it says.
    pub fn wanted_starts(&self) -> Option<&[usize]> {
        match &self.wanted {
            Some(wanted) => wanted.starts.as_ref().map(|starts| starts.as_slice()),
            None => None,
        }
    }
}
