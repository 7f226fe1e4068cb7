//! Playing a run, and what it says where it answers otherwise than it should.

use crate::shown::{Shown, shown_from};
use crate::tape::Tape;
use case_files::{Case, Run, Sheet};
use chuck_driver::{Tally, chuckfix};
use ck_edges::{MemPress, MemShelf};
use fixed_point::Memory;
use std::alloc::Global;

/// The sheets that a command may press.
const SHEETS: usize = 4;

/// What a command did.
#[derive(Drop)]
struct Answer {
    status: u8,
    tape: Tape,
    press: MemPress,
    tally: [u64; 6],
}

/// Plays a command over edges of its own.
fn play(alloc: Global, case: &Case, run: &Run, words: &[String]) -> Result<Answer, Memory> {
    let mut shelf = MemShelf::new(case.files.clone()?, run.bad_reads.clone()?);
    let mut tape = Tape::new(alloc, run.room, run.bad_writes.clone()?)?;
    let mut press = MemPress::new(alloc, run.bad_presses.clone()?);
    press.room(SHEETS, run.room)?;
    let mut tally = Tally::new();
    let status = chuckfix(alloc, words, &mut shelf, &mut tape, &mut press, &mut tally);
    Ok(Answer {
        status: status.code(),
        tape,
        press,
        tally: numbers(&tally),
    })
}

/// The numbers of a run, in the order in which `stats` writes them.
fn numbers(tally: &Tally) -> [u64; 6] {
    [
        tally.samples,
        tally.wakes,
        tally.traps,
        tally.shreds,
        tally.made,
        tally.instructions,
    ]
}

/// Whether the press has these sheets, and no others.
fn has_sheets(press: &MemPress, wanted: &[Sheet]) -> bool {
    press.sheets() == wanted.len()
        && (0..press.sheets())
            .zip(wanted)
            .all(|(i, sheet)| is_sheet(press, i, sheet))
}

/// Whether the sheet of this number is as it should.
fn is_sheet(press: &MemPress, i: usize, wanted: &Sheet) -> bool {
    i < press.sheets()
        && press.name_of(i) == wanted.name.as_bytes()
        && press.bytes_of(i) == wanted.bytes.as_slice()
        && press.is_ended(i) == wanted.ended
}

impl Answer {
    /// Whether it is what the run wants.
    fn suits(&self, run: &Run) -> bool {
        run.status == Some(self.status)
            && self.tape.written() == run.wanted_bytes()
            && self.began(run)
            && has_sheets(&self.press, run.sheets.as_slice())
            && self.left(run)
    }

    /// Whether it left the numbers that it is to leave, if the run says.
    fn left(&self, run: &Run) -> bool {
        match run.tally {
            Some(tally) => self.tally == tally,
            None => true,
        }
    }

    /// Whether its writes began where they are to begin, if the run says.
    fn began(&self, run: &Run) -> bool {
        match run.wanted_starts() {
            Some(starts) => self.tape.starts() == starts,
            None => true,
        }
    }
}

/// What is to be said of a run: nothing where each of its commands answers as it should.
pub(crate) fn complaint(alloc: Global, case: &Case, run: &Run) -> Result<Option<String>, Memory> {
    for words in &run.commands {
        let answer = play(alloc, case, run, words.as_slice())?;
        if !answer.suits(run) {
            return Ok(Some(told(alloc, run, words.as_slice(), &answer)?));
        }
    }
    Ok(None)
}

/// The command, what is wanted of it, and what came.
fn told(alloc: Global, run: &Run, words: &[String], answer: &Answer) -> Result<String, Memory> {
    let mut text = String::new(alloc);
    for word in words {
        write!(text, "{} ", Shown::new(word.as_bytes()))?;
    }
    let (wanted, came) = (run.wanted_bytes(), answer.tape.written());
    let from = shown_from(wanted, came);
    let (wanted, came) = match run.wanted_starts() {
        Some(starts) => (
            Shown::with_writes(wanted, starts, from),
            Shown::with_writes(came, answer.tape.starts(), from),
        ),
        None => (
            Shown::with_writes(wanted, &[], from),
            Shown::with_writes(came, &[], from),
        ),
    };
    if let Some(status) = run.status {
        write!(text, "wants status {status} and {wanted}")?;
        tell_wanted(run.sheets.as_slice(), &mut text)?;
        tell_tally(run.tally, &mut text)?;
        text.push_str(", ")?;
    }
    write!(text, "got status {} and {came}", answer.status)?;
    tell_pressed(&answer.press, &mut text)?;
    if run.tally.is_some() {
        tell_tally(Some(answer.tally), &mut text)?;
    }
    Ok(text)
}

/// What is said of a sheet.
fn tell_sheet(name: &[u8], bytes: &[u8], ended: bool, text: &mut String) -> Result<(), Memory> {
    let word = if ended { "sheet" } else { "unended" };
    write!(text, ", {word} {} {}", Shown::new(name), Shown::new(bytes))?;
    Ok(())
}

/// The numbers of a run, where there are any to tell.
fn tell_tally(tally: Option<[u64; 6]>, text: &mut String) -> Result<(), Memory> {
    if let Some(tally) = tally {
        text.push_str(", tally")?;
        for count in tally {
            write!(text, " {count}")?;
        }
    }
    Ok(())
}

/// The sheets that are wanted.
fn tell_wanted(sheets: &[Sheet], text: &mut String) -> Result<(), Memory> {
    for sheet in sheets {
        tell_sheet(
            sheet.name.as_bytes(),
            sheet.bytes.as_slice(),
            sheet.ended,
            text,
        )?;
    }
    Ok(())
}

/// The sheets that came.
fn tell_pressed(press: &MemPress, text: &mut String) -> Result<(), Memory> {
    for i in 0..press.sheets() {
        tell_sheet(press.name_of(i), press.bytes_of(i), press.is_ended(i), text)?;
    }
    Ok(())
}
