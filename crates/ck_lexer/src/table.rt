//! The words and the marks with their spellings.

ghost use Rattle.std.specs.Prelude.{◌≡◌, ◌<◌, map, length, nat_eq, nat_lt, true};
ghost use Rattle.std.specs.List.{list_all, starts_with};
ghost use Rattle.ck_lexer.specs.Tables.{look_up, first_front, words, marks};

use crate::mark::Mark;
use crate::word::Word;

/// A spelling and the word that it stands for.
type WordRow = (&'static [u8], Word);

/// A spelling and the mark that it stands for.
type MarkRow = (&'static [u8], Mark);

/// The words.
static WORDS: [WordRow; 41] = [
    (b"int", Word::Int),
    (b"float", Word::Float),
    (b"dur", Word::Dur),
    (b"time", Word::Time),
    (b"string", Word::String),
    (b"void", Word::Void),
    (b"if", Word::If),
    (b"else", Word::Else),
    (b"while", Word::While),
    (b"do", Word::Do),
    (b"until", Word::Until),
    (b"for", Word::For),
    (b"repeat", Word::Repeat),
    (b"break", Word::Break),
    (b"continue", Word::Continue),
    (b"return", Word::Return),
    (b"fun", Word::Fun),
    (b"function", Word::Fun),
    (b"class", Word::Class),
    (b"extends", Word::Extends),
    (b"public", Word::Public),
    (b"static", Word::Static),
    (b"new", Word::New),
    (b"spork", Word::Spork),
    (b"true", Word::True),
    (b"false", Word::False),
    (b"null", Word::Null),
    (b"NULL", Word::Null),
    (b"now", Word::Now),
    (b"me", Word::Me),
    (b"dac", Word::Dac),
    (b"blackhole", Word::Blackhole),
    (b"this", Word::This),
    (b"samp", Word::Samp),
    (b"ms", Word::Ms),
    (b"second", Word::Second),
    (b"minute", Word::Minute),
    (b"hour", Word::Hour),
    (b"day", Word::Day),
    (b"week", Word::Week),
    (b"auto", Word::Auto),
];

/// The marks, the longer ones first.
static MARKS: [MarkRow; 49] = [
    (b"@=>", Mark::AtChuck),
    (b"+=>", Mark::PlusChuck),
    (b"-=>", Mark::MinusChuck),
    (b"*=>", Mark::StarChuck),
    (b"/=>", Mark::SlashChuck),
    (b"%=>", Mark::PercentChuck),
    (b"&=>", Mark::AmpersandChuck),
    (b"|=>", Mark::PipeChuck),
    (b"^=>", Mark::CaretChuck),
    (b"<<<", Mark::PrintOpen),
    (b">>>", Mark::PrintClose),
    (b"=>", Mark::Chuck),
    (b"=<", Mark::Unchuck),
    (b"++", Mark::PlusPlus),
    (b"--", Mark::MinusMinus),
    (b"::", Mark::ColonColon),
    (b"==", Mark::EqualEqual),
    (b"!=", Mark::BangEqual),
    (b"<=", Mark::LessEqual),
    (b">=", Mark::GreaterEqual),
    (b"&&", Mark::AmpersandAmpersand),
    (b"||", Mark::PipePipe),
    (b"<<", Mark::LessLess),
    (b">>", Mark::GreaterGreater),
    (b"+", Mark::Plus),
    (b"-", Mark::Minus),
    (b"*", Mark::Star),
    (b"/", Mark::Slash),
    (b"%", Mark::Percent),
    (b"<", Mark::Less),
    (b">", Mark::Greater),
    (b"&", Mark::Ampersand),
    (b"|", Mark::Pipe),
    (b"^", Mark::Caret),
    (b"!", Mark::Bang),
    (b"~", Mark::Tilde),
    (b"?", Mark::Question),
    (b":", Mark::Colon),
    (b";", Mark::Semicolon),
    (b",", Mark::Comma),
    (b".", Mark::Dot),
    (b"(", Mark::LeftParen),
    (b")", Mark::RightParen),
    (b"[", Mark::LeftBracket),
    (b"]", Mark::RightBracket),
    (b"{", Mark::LeftBrace),
    (b"}", Mark::RightBrace),
    (b"@", Mark::At),
    (b"$", Mark::Dollar),
];

fn word_rows() -> &'static [WordRow]
    ensures { map (λ row. (row.0.now, row.1)) result.now ≡ words }
{
    &WORDS
}

fn mark_rows() -> &'static [MarkRow]
    ensures rows { map (λ row. (row.0.now, row.1)) result.now ≡ marks }
    ensures not_empty { list_all (λ row. nat_lt 0 (length row.0.now)) result.now ≡ true }
{
    &MARKS
}

/// The word with this spelling.
pub(crate) fn word_of(name: &[u8]) -> Option<Word>
    ensures { result ≡ look_up words name.now }
{
    for (spelling, word) in word_rows() {
        if *spelling == name {
            return Some(*word);
        }
    }
    None
}

/// Whether the bytes begin with a spelling. The first byte alone tells most spellings apart.
#[inline]
fn begin_so(bytes: &[u8], spelling: &[u8]) -> bool
    requires { 0 < length spelling.now }
    ensures { result ≡ starts_with nat_eq bytes.now spelling.now }
{
    let Some(first) = bytes.first() else {
        return false;
    };
    *first == spelling[0] && bytes.starts_with(spelling)
}

/// The first mark of the table that the bytes begin with, and how many bytes it has.
pub(crate) fn mark_at(bytes: &[u8]) -> Option<(Mark, usize)>
    ensures { result ≡ first_front marks bytes.now }
{
    for (spelling, mark) in mark_rows() {
        if begin_so(bytes, spelling) {
            return Some((*mark, spelling.len()));
        }
    }
    None
}
