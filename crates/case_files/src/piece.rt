//! Pieces of bytes, as the lines of a case file write them.

use crate::wrong::Wrong;
use std::alloc::Global;
use std::str::FromStr;

/// The first word of a line, and what stands behind the space after it.
pub(crate) fn first_word(line: &str) -> (&str, &str) {
    line.split_once(' ').unwrap_or((line, ""))
}

/// The number that a text of decimal digits writes; a sign is no digit.
pub(crate) fn number<N: FromStr>(text: &str) -> Result<N, Wrong>
where
    N::Err: Drop,
{
    if !text.bytes().all(|byte| byte.is_ascii_digit()) {
        return Err(Wrong::Number);
    }
    text.parse::<N>().map_err(|_| Wrong::Number)
}

/// What the text of a line says of bytes.
#[derive(Clone, Copy)]
enum Unit {
    /// `| TEXT`: the text, and the end of its line.
    Line,
    /// `|- TEXT`: the text alone.
    Text,
    /// `hex c3 28`: each byte as two digits.
    Hex,
    /// `samples -1 258`: each sample in two bytes, the low one first.
    Samples,
}

impl Unit {
    /// The unit that begins with this word.
    fn read(word: &str) -> Result<Unit, Wrong> {
        match word {
            "|" => Ok(Unit::Line),
            "|-" => Ok(Unit::Text),
            "hex" => Ok(Unit::Hex),
            "samples" => Ok(Unit::Samples),
            _ => Err(Wrong::Unknown),
        }
    }

    /// Adds the bytes that this text gives.
    fn append(self, text: &str, into: &mut Vec<u8>) -> Result<(), Wrong> {
        match self {
            Unit::Line => {
                into.extend_from_slice(text.as_bytes())?;
                into.push(b'\n')?;
                Ok(())
            }
            Unit::Text => Ok(into.extend_from_slice(text.as_bytes())?),
            Unit::Hex => append_hex(text, into),
            Unit::Samples => append_samples(text, into),
        }
    }
}

/// Adds bytes that are written as two hexadecimal digits each.
fn append_hex(bytes: &str, into: &mut Vec<u8>) -> Result<(), Wrong> {
    for byte in bytes.split_whitespace() {
        if byte.len() != 2 || !byte.bytes().all(|digit| digit.is_ascii_hexdigit()) {
            return Err(Wrong::Hex);
        }
        into.push(u8::from_str_radix(byte, 16).map_err(|_| Wrong::Hex)?)?;
    }
    Ok(())
}

/// Adds samples that are written in decimal, each in two bytes, the low one first.
fn append_samples(samples: &str, into: &mut Vec<u8>) -> Result<(), Wrong> {
    for sample in samples.split_whitespace() {
        let sample: i16 = sample.parse().map_err(|_| Wrong::Number)?;
        into.extend_from_slice(&sample.to_le_bytes())?;
    }
    Ok(())
}

/// How often a unit stands in a piece.
#[derive(Clone, Copy)]
enum Times {
    /// `repeat 3`: so many times.
    Repeat(u32),
    /// `count 3 5`: for each of these numbers, which stands in place of every `#`.
    Count { first: u32, last: u32 },
}

impl Times {
    /// The numbers from the first to the last, as `3 5`, and what stands behind them.
    fn count(rest: &str) -> Result<(Times, &str), Wrong> {
        let (first, rest) = first_word(rest);
        let (last, rest) = first_word(rest);
        let (first, last) = (number(first)?, number(last)?);
        if first > last {
            return Err(Wrong::Number);
        }
        Ok((Times::Count { first, last }, rest))
    }
}

/// Bytes that stand in one line: `| TEXT`, `repeat 3 | TEXT`, `count 3 5 | TEXT`.
#[derive(Clone, Copy)]
pub(crate) struct Piece<'a> {
    times: Times,
    unit: Unit,
    text: &'a str,
}

impl<'a> Piece<'a> {
    /// The piece that begins with this word.
    pub(crate) fn read(word: &str, rest: &'a str) -> Result<Piece<'a>, Wrong> {
        match word {
            "repeat" => {
                let (times, rest) = first_word(rest);
                Piece::read_unit(Times::Repeat(number(times)?), rest)
            }
            "count" => {
                let (times, rest) = Times::count(rest)?;
                Piece::read_unit(times, rest)
            }
            _ => {
                let times = Times::Repeat(1);
                let unit = Unit::read(word)?;
                Ok(Piece {
                    times,
                    unit,
                    text: rest,
                })
            }
        }
    }

    /// The piece of a unit that stands so often.
    fn read_unit(times: Times, rest: &'a str) -> Result<Piece<'a>, Wrong> {
        let (word, text) = first_word(rest);
        let unit = Unit::read(word)?;
        Ok(Piece { times, unit, text })
    }

    /// Adds its bytes.
    pub(crate) fn append(self, alloc: Global, into: &mut Vec<u8>) -> Result<(), Wrong> {
        match self.times {
            Times::Repeat(times) => {
                for _ in 0..times {
                    self.unit.append(self.text, into)?;
                }
            }
            Times::Count { first, last } => {
                for number in first..=last {
                    let number = format!(in alloc; "{number}")?;
                    let text = self.text.replace(alloc, '#', number.as_str())?;
                    self.unit.append(text.as_str(), into)?;
                }
            }
        }
        Ok(())
    }
}
