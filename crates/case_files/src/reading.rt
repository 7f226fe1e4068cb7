//! Reading the cases of a file, a line at a time.

use crate::case::{Case, Run, Sheet, Wanted};
use crate::line::{Line, Setting, Text};
use crate::piece::Piece;
use crate::wrong::{Fault, Wrong};
use std::alloc::Global;

/// What the line above began, so to what the next belongs.
#[derive(Clone, Copy, PartialEq, Eq)]
enum Place {
    /// Nothing that takes more lines.
    Nowhere,
    /// A file, which takes bytes.
    File,
    /// Commands, which take words and more commands.
    Commands,
    /// What is to be written, or one write of it, which takes bytes.
    Out,
    /// A sheet, which takes bytes.
    Sheet,
}

/// The cases of a file so far.
#[derive(Drop)]
struct Reader {
    alloc: Global,
    cases: Vec<Case>,
    place: Place,
}

/// The cases that a text holds, at least one, each whole.
///
/// The fault is that of the first line that is wrong by itself or behind those above it. Where none
/// is, it names line 1 of a text without cases, the first line of a case without runs, or that of
/// a run without a status. It is [`Wrong::Memory`] where there was not enough memory for a line.
pub fn read_cases(alloc: Global, text: &str) -> Result<Vec<Case>, Fault> {
    let mut reader = Reader {
        alloc,
        cases: Vec::new(alloc),
        place: Place::Nowhere,
    };
    let mut line = 0usize;
    for text in text.lines() {
        line = line.saturating_add(1);
        reader
            .read(line, text)
            .map_err(|wrong| Fault { line, wrong })?;
    }
    if reader.cases.is_empty() {
        return Err(Fault {
            line: 1,
            wrong: Wrong::NoCases,
        });
    }
    for case in &reader.cases {
        check_whole(case)?;
    }
    Ok(reader.cases)
}

/// Refuses a case without runs, and a run without a status.
fn check_whole(case: &Case) -> Result<(), Fault> {
    if case.runs.is_empty() {
        return Err(Fault {
            line: case.line,
            wrong: Wrong::NoRuns,
        });
    }
    match case.runs.iter().find(|run| run.status.is_none()) {
        Some(run) => Err(Fault {
            line: run.line,
            wrong: Wrong::NoStatus,
        }),
        None => Ok(()),
    }
}

/// The words of a command, cut at spaces.
fn words_of(alloc: Global, text: &str) -> Result<Vec<String>, Wrong> {
    let mut words = Vec::new(alloc);
    for word in text.split_whitespace() {
        words.push(String::from_str(alloc, word)?)?;
    }
    Ok(words)
}

impl Reader {
    /// Takes the line of this number.
    fn read(&mut self, line: usize, text: &str) -> Result<(), Wrong> {
        let said = Line::read(text)?;
        self.take(line, said)
    }

    /// Takes what the line of this number says.
    fn take(&mut self, line: usize, said: Line<'_>) -> Result<(), Wrong> {
        match said {
            Line::Blank => Ok(()),
            Line::Case(name) => self.begin_case(line, name),
            Line::File(name) => self.begin_file(name),
            Line::Run(words) => self.begin_command(line, words),
            Line::Word(word) => self.add_word(word),
            Line::Set(setting) => self.set(setting),
            Line::Out => self.begin_out(),
            Line::Write => self.begin_write(),
            Line::Sheet { name, ended } => self.begin_sheet(name, ended),
            Line::Piece(piece) => self.add_piece(piece),
        }
    }

    fn last_case(&mut self) -> Result<&mut Case, Wrong> {
        self.cases.last_mut().ok_or(Wrong::NoCase)
    }

    fn last_run(&mut self) -> Result<&mut Run, Wrong> {
        self.last_case()?.runs.last_mut().ok_or(Wrong::NoRun)
    }

    fn begin_case(&mut self, line: usize, name: &str) -> Result<(), Wrong> {
        if name.is_empty() {
            return Err(Wrong::NoName);
        }
        if self.cases.iter().any(|case| case.name.as_str() == name) {
            return Err(Wrong::SameName);
        }
        self.place = Place::Nowhere;
        self.cases.push(Case {
            name: String::from_str(self.alloc, name)?,
            line,
            files: Vec::new(self.alloc),
            runs: Vec::new(self.alloc),
        })?;
        Ok(())
    }

    fn begin_file(&mut self, name: Text<'_>) -> Result<(), Wrong> {
        self.place = Place::File;
        let name = name.owned(self.alloc)?;
        let bytes = Vec::new(self.alloc);
        let case = self.last_case()?;
        if !case.runs.is_empty() {
            return Err(Wrong::LateFile);
        }
        if case
            .files
            .iter()
            .any(|file| file.0.as_str() == name.as_str())
        {
            return Err(Wrong::SameFile);
        }
        case.files.push((name, bytes))?;
        Ok(())
    }

    /// A command behind another one is of the same run, else it begins one.
    fn begin_command(&mut self, line: usize, words: &str) -> Result<(), Wrong> {
        if self.place != Place::Commands {
            self.begin_run(line)?;
        }
        let command = words_of(self.alloc, words)?;
        self.last_run()?.commands.push(command)?;
        Ok(())
    }

    fn begin_run(&mut self, line: usize) -> Result<(), Wrong> {
        let alloc = self.alloc;
        let case = self.last_case()?;
        case.runs.push(Run::new(alloc, line))?;
        self.place = Place::Commands;
        Ok(())
    }

    fn add_word(&mut self, word: Text<'_>) -> Result<(), Wrong> {
        let word = word.owned(self.alloc)?;
        if self.place != Place::Commands {
            return Err(Wrong::NoRun);
        }
        self.last_command()?.push(word)?;
        Ok(())
    }

    fn last_command(&mut self) -> Result<&mut Vec<String>, Wrong> {
        self.last_run()?.commands.last_mut().ok_or(Wrong::NoRun)
    }

    /// Takes a line that sets a number of the run.
    fn set(&mut self, setting: Setting) -> Result<(), Wrong> {
        self.place = Place::Nowhere;
        let run = self.last_run()?;
        match setting {
            Setting::BadRead(read) => run.bad_reads.push(read)?,
            Setting::BadWrite(write, most) => run.bad_writes.push((write, most))?,
            Setting::BadPress(call, most) => run.bad_presses.push((call, most))?,
            Setting::Room(bytes) => run.room = bytes,
            Setting::Status(status) if run.status.is_none() => run.status = Some(status),
            Setting::Tally(tally) if run.tally.is_none() => run.tally = Some(tally),
            Setting::Status(_) | Setting::Tally(_) => return Err(Wrong::Twice),
        }
        Ok(())
    }

    fn begin_out(&mut self) -> Result<(), Wrong> {
        let alloc = self.alloc;
        let run = self.last_run()?;
        if run.wanted.is_some() {
            return Err(Wrong::Twice);
        }
        run.wanted = Some(Wanted {
            bytes: Vec::new(alloc),
            starts: None,
        });
        self.place = Place::Out;
        Ok(())
    }

    fn begin_write(&mut self) -> Result<(), Wrong> {
        let alloc = self.alloc;
        let wanted = self.last_run()?.wanted.get_or_insert_with(|| Wanted {
            bytes: Vec::new(alloc),
            starts: Some(Vec::new(alloc)),
        });
        let starts = wanted.starts.as_mut().ok_or(Wrong::Twice)?;
        starts.push(wanted.bytes.len())?;
        self.place = Place::Out;
        Ok(())
    }

    fn begin_sheet(&mut self, name: &str, ended: bool) -> Result<(), Wrong> {
        let alloc = self.alloc;
        let run = self.last_run()?;
        let name = String::from_str(alloc, name)?;
        let bytes = Vec::new(alloc);
        run.sheets.push(Sheet { name, bytes, ended })?;
        self.place = Place::Sheet;
        Ok(())
    }

    fn add_piece(&mut self, piece: Piece<'_>) -> Result<(), Wrong> {
        piece.append(self.alloc, self.last_bytes()?)
    }

    /// The bytes to which a piece belongs.
    fn last_bytes(&mut self) -> Result<&mut Vec<u8>, Wrong> {
        match self.place {
            Place::File => self.last_file(),
            Place::Out => self.last_wanted(),
            Place::Sheet => self.last_sheet(),
            Place::Nowhere | Place::Commands => Err(Wrong::NoPlace),
        }
    }

    fn last_file(&mut self) -> Result<&mut Vec<u8>, Wrong> {
        match self.last_case()?.files.last_mut() {
            Some((_, bytes)) => Ok(bytes),
            None => Err(Wrong::NoPlace),
        }
    }

    fn last_wanted(&mut self) -> Result<&mut Vec<u8>, Wrong> {
        match &mut self.last_run()?.wanted {
            Some(wanted) => Ok(&mut wanted.bytes),
            None => Err(Wrong::NoPlace),
        }
    }

    fn last_sheet(&mut self) -> Result<&mut Vec<u8>, Wrong> {
        match self.last_run()?.sheets.last_mut() {
            Some(sheet) => Ok(&mut sheet.bytes),
            None => Err(Wrong::NoPlace),
        }
    }
}
