//! The lines of a case file.

use crate::piece::{Piece, first_word, number};
use crate::wrong::Wrong;
use std::alloc::Global;

/// A line of a case file, told by its first word.
#[derive(Clone, Copy)]
pub(crate) enum Line<'a> {
    /// Nothing, or a comment behind `#`.
    Blank,
    /// `case NAME`: a case begins.
    Case(&'a str),
    /// `file NAME` or `file-of PIECE`: a file of the case, whose bytes follow.
    File(Text<'a>),
    /// `run WORD WORD ..`: a command over the files of the case.
    Run(&'a str),
    /// `word TEXT` or `word-of PIECE`: one more word of the command, spaces and all.
    Word(Text<'a>),
    /// `bad-read 1`, `room 9` and other lines that set a number of the run.
    Set(Setting),
    /// `out`: what is to be written, whose bytes follow.
    Out,
    /// `write`: one write of what is to be written, whose bytes follow.
    Write,
    /// `sheet NAME`: a sheet that is to be pressed, whose bytes follow, ended or `unended`.
    Sheet { name: &'a str, ended: bool },
    /// Bytes.
    Piece(Piece<'a>),
}

/// A name or a word.
#[derive(Clone, Copy)]
pub(crate) enum Text<'a> {
    /// It stands in the line.
    Plain(&'a str),
    /// A piece writes it, since no line can hold it.
    Of(Piece<'a>),
}

impl<'a> Text<'a> {
    /// The text that this piece writes.
    fn of(piece: &'a str) -> Result<Text<'a>, Wrong> {
        let (word, rest) = first_word(piece);
        let piece = Piece::read(word, rest)?;
        Ok(Text::Of(piece))
    }

    /// The text by itself.
    pub(crate) fn owned(self, alloc: Global) -> Result<String, Wrong> {
        match self {
            Text::Plain(text) => Ok(String::from_str(alloc, text)?),
            Text::Of(piece) => written(alloc, piece),
        }
    }
}

/// The text that a piece writes.
fn written(alloc: Global, piece: Piece<'_>) -> Result<String, Wrong> {
    let mut bytes = Vec::new(alloc);
    piece.append(alloc, &mut bytes)?;
    String::from_utf8(bytes).map_err(|_| Wrong::Text)
}

/// What a line sets of a run.
#[derive(Clone, Copy)]
pub(crate) enum Setting {
    /// `bad-read 1`: the read of this number fails.
    BadRead(u64),
    /// `bad-write 2 after 3`: the write of this number fails after so many bytes.
    BadWrite(u64, usize),
    /// `bad-press 2 after 3`: the call of the press of this number fails, a write after so many bytes.
    BadPress(u64, usize),
    /// `room 9`: after so many bytes the output is full.
    Room(usize),
    /// `status 0`: the exit status that is wanted.
    Status(u8),
    /// `tally 3 2 0 1 2 7`: the numbers of the run that are to be left.
    Tally([u64; 6]),
}

impl<'a> Line<'a> {
    /// What this line says.
    pub(crate) fn read(line: &'a str) -> Result<Line<'a>, Wrong> {
        let (word, rest) = first_word(line);
        match word {
            "" if rest.is_empty() => Ok(Line::Blank),
            "#" => Ok(Line::Blank),
            "case" => Ok(Line::Case(rest)),
            "file" => Ok(Line::File(Text::Plain(rest))),
            "file-of" => Ok(Line::File(Text::of(rest)?)),
            "run" => Ok(Line::Run(rest)),
            "word" => Ok(Line::Word(Text::Plain(rest))),
            "word-of" => Ok(Line::Word(Text::of(rest)?)),
            "out" if rest.is_empty() => Ok(Line::Out),
            "write" if rest.is_empty() => Ok(Line::Write),
            "sheet" => Ok(Line::Sheet {
                name: rest,
                ended: true,
            }),
            "unended" => Ok(Line::Sheet {
                name: rest,
                ended: false,
            }),
            _ => Line::read_setting(word, rest),
        }
    }

    /// The same of a line that sets a number, or gives bytes.
    fn read_setting(word: &str, rest: &'a str) -> Result<Line<'a>, Wrong> {
        match word {
            "bad-read" => Ok(Line::Set(Setting::BadRead(number(rest)?))),
            "bad-write" => {
                let (write, bytes) = bad_call(rest)?;
                Ok(Line::Set(Setting::BadWrite(write, bytes)))
            }
            "bad-press" => {
                let (call, bytes) = bad_call(rest)?;
                Ok(Line::Set(Setting::BadPress(call, bytes)))
            }
            "room" => Ok(Line::Set(Setting::Room(number(rest)?))),
            "status" => Ok(Line::Set(Setting::Status(number(rest)?))),
            "tally" => Ok(Line::Set(Setting::Tally(tally(rest)?))),
            _ => Ok(Line::Piece(Piece::read(word, rest)?)),
        }
    }
}

/// Six numbers, with spaces between.
fn tally(text: &str) -> Result<[u64; 6], Wrong> {
    let mut tally = [0; 6];
    let mut words = text.split_whitespace();
    for count in tally.iter_mut() {
        *count = number(words.next().ok_or(Wrong::Number)?)?;
    }
    match words.next() {
        Some(_) => Err(Wrong::Number),
        None => Ok(tally),
    }
}

/// A call that fails, after no bytes where it doesn't say.
fn bad_call(rest: &str) -> Result<(u64, usize), Wrong> {
    let (call, bytes) = rest.split_once(" after ").unwrap_or((rest, "0"));
    Ok((number(call)?, number(bytes)?))
}
