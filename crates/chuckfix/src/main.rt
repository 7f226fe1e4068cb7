//! The program: it collects its words, makes the real edges, calls the driver and ends with the
//! status that it gave.
#![tactic(auto)]

use chuck_driver::{Status, Tally, chuckfix};
use ck_edges::{DiskPress, DiskShelf, StdoutSink};
use std::process::ExitCode;
use std::rt::{Env, Files};
use std::{env, io};

/// What standard error says of words that are no command.
const USAGE: &str = "usage: chuckfix check|wakes|render|stats|code|load";

/// The words behind the program's own name.
fn words<R: Env + AllocGlobal>(rt: &R) -> io::Result<Vec<String>> {
    let mut words = Vec::new(rt.alloc());
    for word in env::args(rt)?.skip(1) {
        words.push(word)?;
    }
    Ok(words)
}

/// Carries out the command over the disk and standard output.
fn run<R: Env + Files + Print + AllocGlobal>(rt: &R) -> Status {
    match words(rt) {
        Ok(words) => chuckfix(
            rt.alloc(),
            &words,
            &mut DiskShelf::new(rt),
            &mut StdoutSink::new(rt),
            &mut DiskPress::new(rt),
            &mut Tally::new(),
        ),
        Err(error) if error.kind() == io::ErrorKind::OutOfMemory => Status::Memory,
        Err(_) => Status::Usage,
    }
}

fn main(rt: HostRuntime) -> ExitCode {
    let status = run(&rt);
    if status == Status::Usage {
        // Where standard error takes nothing, the exit status still tells.
        let _ = eprintln!(rt; "{USAGE}");
    }
    ExitCode::from(status.code())
}
