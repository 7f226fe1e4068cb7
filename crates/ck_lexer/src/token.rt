use crate::mark::Mark;
use crate::word::Word;
use ck_base::Text;
use fixed_point::Fix;

/// What a token is.
#[derive(Drop)]
pub enum TokenKind {
    /// A word of the language.
    Word(Word),
    /// A name: at most 65,536 bytes.
    Name(Text),
    /// A whole number, from 0 to 9,223,372,036,854,775,807.
    Int(i64),
    /// A number with a point.
    Float(Fix),
    /// A text in quotes, its escapes read: at most 65,536 bytes.
    Text(Text),
    /// A mark.
    Mark(Mark),
    /// The end of the file. There is one, behind all other tokens.
    End,
}

/// A token, with where it begins.
#[derive(Drop)]
pub struct Token {
    pub kind: TokenKind,
    /// The line of its first byte, from 1.
    pub line: u32,
    /// The place of its first byte, from 0.
    pub at: u32,
}
