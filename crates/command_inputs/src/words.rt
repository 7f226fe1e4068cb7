//! Command lines: which lists of words are a command, and what their words name.
ghost use Rattle.std.specs.Prelude.{◌≡◌, true, ◌∷◌, length, Some};
ghost use Rattle.std.specs.List.{list_all};
ghost use Rattle.ck_lexer.specs.Bytes.{is_digit};
ghost use Rattle.command_inputs.specs.Words.{words_of, command_of, are_files, check_of, wakes_of};
ghost use Rattle.command_inputs.specs.Words.{render_of, stats_of, code_of, load_of};
ghost use Rattle.command_inputs.specs.Words.{file_words, sheet_word, TakesFiles, ReadsFiles};
ghost use Rattle.command_inputs.specs.Words.{samples_asked, is_count};
ghost use Rattle.command_inputs.specs.Words.{can_name_file, decimal_value};

use crate::commands::Command;
use ck_base::limits::{MAX_FILES, MAX_NAME_WORD_BYTES, MAX_SAMPLES};

/// The command of these words, without the program's own name; none exactly where they are no
/// command. It takes no memory.
pub fn command(words: &[String]) -> Option<Command>
    ensures { result ≡ command_of (words_of words.now) }
{
    match words {
        [verb, words @ ..] => command_of_verb(verb.as_str(), words),
        _ => None,
    }
}

/// The command of this verb, with these words behind it.
fn command_of_verb(verb: &str, words: &[String]) -> Option<Command>
    ensures { result ≡ command_of (verb.now ∷ words_of words.now) }
{
    if verb == "check" {
        check(words)
    } else if verb == "wakes" {
        wakes(words)
    } else if verb == "render" {
        render(words)
    } else if verb == "stats" {
        stats(words)
    } else if verb == "code" {
        code(words)
    } else if verb == "load" {
        load(words)
    } else {
        None
    }
}

/// `check` over the files of these names.
fn check(files: &[String]) -> Option<Command>
    ensures { result ≡ check_of (words_of files.now) }
{
    if names_files(files) {
        Some(Command::Check)
    } else {
        None
    }
}

/// Whether the words can name the files of a command: 1 to 64 of them.
fn names_files(words: &[String]) -> bool
    ensures { result ≡ are_files (words_of words.now) }
{
    let few = 1 <= words.len() && words.len() <= MAX_FILES;
    few && all_name_files(words)
}

/// Whether each word can name a file.
fn all_name_files(words: &[String]) -> bool
    ensures { result ≡ list_all can_name_file (words_of words.now) }
{
    for word in words {
        if !names_file(word.as_str()) {
            return false;
        }
    }
    true
}

/// `wakes` of a number of samples and the names of files.
fn wakes(words: &[String]) -> Option<Command>
    ensures { result ≡ wakes_of (words_of words.now) }
{
    match words {
        [count, files @ ..] if names_files(files) => {
            sample_count(count.as_bytes()).map(Command::Wakes)
        }
        _ => None,
    }
}

/// `render` of a number of samples, the name of a sheet and the names of files.
fn render(words: &[String]) -> Option<Command>
    ensures { result ≡ render_of (words_of words.now) }
{
    match words {
        [count, sheet, files @ ..] if names_file(sheet.as_str()) && names_files(files) => {
            sample_count(count.as_bytes()).map(Command::Render)
        }
        _ => None,
    }
}

/// `stats` of a number of samples and the names of files.
fn stats(words: &[String]) -> Option<Command>
    ensures { result ≡ stats_of (words_of words.now) }
{
    match words {
        [count, files @ ..] if names_files(files) => {
            sample_count(count.as_bytes()).map(Command::Stats)
        }
        _ => None,
    }
}

/// `code` over the files of these names.
fn code(files: &[String]) -> Option<Command>
    ensures { result ≡ code_of (words_of files.now) }
{
    if names_files(files) {
        Some(Command::Code)
    } else {
        None
    }
}

/// `load` of a seed.
fn load(words: &[String]) -> Option<Command>
    ensures { result ≡ load_of (words_of words.now) }
{
    match words {
        [seed] if is_digits(seed.as_bytes()) => Some(Command::Load(value_of(seed.as_bytes()))),
        _ => None,
    }
}

/// The word of a rendering that names its sheet.
pub fn sheet_name(words: &[String]) -> &str
    ensures { result.now ≡ sheet_word (words_of words.now) }
{
    match words {
        [_, _, sheet, ..] => sheet.as_str(),
        _ => "",
    }
}

/// The names of the files in the words of a command.
pub fn file_names(command: Command, words: &[String]) -> &[String]
    requires { command_of (words_of words.now) ≡ Some command }
    ensures names { words_of result.now ≡ file_words (words_of words.now) }
    ensures takes { ReadsFiles command → TakesFiles command (length result.now) }
{
    match command {
        Command::Check => &words[1..],
        Command::Wakes(_) => &words[2..],
        Command::Render(_) => &words[3..],
        Command::Stats(_) => &words[2..],
        Command::Code => &words[1..],
        Command::Load(_) => &[],
    }
}

/// Whether the word can name a file or a sheet: 1 to 4,096 bytes.
fn names_file(word: &str) -> bool
    ensures { result ≡ can_name_file word.now }
{
    1 <= word.len() && word.len() <= MAX_NAME_WORD_BYTES
}

/// The number of samples that a word asks for: one to nine decimal digits, at most 500,000,000.
fn sample_count(word: &[u8]) -> Option<u32>
    ensures { result ≡ samples_asked word.now }
{
    if !is_digits(word) {
        return None;
    }
    let value = value_of(word);
    if value <= MAX_SAMPLES {
        Some(value)
    } else {
        None
    }
}

/// Whether the word is one to nine decimal digits.
fn is_digits(word: &[u8]) -> bool
    ensures { result ≡ is_count word.now }
{
    let few = 1 <= word.len() && word.len() <= 9;
    few && all_digits(word)
}

/// Whether each byte is a decimal digit.
fn all_digits(word: &[u8]) -> bool
    ensures { result ≡ list_all is_digit word.now }
{
    word.iter().all(|byte| b'0' <= *byte && *byte <= b'9')
}

/// The number that one to nine decimal digits write.
fn value_of(digits: &[u8]) -> u32
    requires { is_count digits.now ≡ true }
    ensures { result ≡ decimal_value digits.now }
{
    let mut value = 0u32;
    for digit in digits {
        value = 10 * value + u32::from(*digit - b'0');
    }
    value
}
