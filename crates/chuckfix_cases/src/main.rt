//! Plays the cases of the files `*.cases` in the folder that it is run in: the commands of the
//! program over edges in memory. It says which cases fail, and how many pass.
#![tactic(auto)]

use case_player::Report;
use std::process::ExitCode;
use std::rt::Files;
use std::{fs, io};

/// The names of the case files, in order.
fn case_files<R: Files + AllocGlobal + Clone + Drop>(rt: &R) -> io::Result<Vec<String>> {
    let mut names = Vec::new(rt.alloc());
    for entry in fs::read_dir(rt, ".")? {
        let entry = entry?;
        if entry.file_name().ends_with(".cases") {
            names.push(String::from_str(rt.alloc(), entry.file_name())?)?;
        }
    }
    names.sort()?;
    Ok(names)
}

/// Plays the cases of a file.
fn play_file<R: Files + AllocGlobal>(rt: &R, file: &str, report: &mut Report) -> io::Result<()> {
    let played = match fs::read_to_string(rt, file) {
        Ok(text) => report.play(file, text.as_str()),
        Err(_) => report.miss(file),
    };
    played.map_err(|_| io::ErrorKind::OutOfMemory.into())
}

fn main(rt: HostRuntime) -> io::Result<ExitCode> {
    let mut report = Report::new(rt.alloc());
    for file in &case_files(&rt)? {
        play_file(&rt, file.as_str(), &mut report)?;
    }
    println!(rt; "{report}")?;
    Ok(ExitCode::from(u8::from(!report.is_good())))
}
