//! The lines of a listing.

ghost use Rattle.std.specs.Prelude.{◌≡◌, ◌∷◌, ◌++◌, OnOk, OnErr, map, decimal};
ghost use Rattle.std.specs.Fmt.{signed_decimal};
ghost use Rattle.ck_store.specs.Prints.{kind_name};
ghost use Rattle.code_listing.specs.Kept.{Keeps};
ghost use Rattle.code_listing.specs.Listing.{spaced, step_line, step_lines, fun_line, fun_lines};
ghost use Rattle.code_listing.specs.Words.{argument_word, words_meant};

use crate::words::{Argument, Words, words_of};
use ck_code::{Fun, Step};
use ck_typed::Class;
use ck_values::Kind;
use fixed_point::Memory;
use itoa::Buffer;
use kind_names::add_kind;

/// Adds functions in their order.
#[tactic(auto, using(crate::proofs::Kept::keeps_more))]
pub(crate) fn add_funs(classes: &[Class], funs: &[Fun], into: &mut Vec<u8>) -> Result<(), Memory>
    ensures ok { OnOk result (into.new.items
        ≡ into.old.items ++ fun_lines classes.now 0 funs.now) }
    ensures err { OnErr result (Keeps into.old.items into.new.items) }
{
    for (number, fun) in funs.iter().enumerate() {
        add_fun(classes, number, fun, into)?;
    }
    Ok(())
}

/// Adds the line of a function and those of its instructions.
#[tactic(auto, using(crate::proofs::Kept::keeps_more))]
fn add_fun(classes: &[Class], number: usize, fun: &Fun, into: &mut Vec<u8>) -> Result<(), Memory>
    ensures ok { OnOk result (into.new.items
        ≡ into.old.items ++ (fun_line number fun.now ++ step_lines classes.now 0 fun.now.code)) }
    ensures err { OnErr result (Keeps into.old.items into.new.items) }
{
    add_fun_line(number, fun, into)?;
    for (place, step) in fun.code.items().iter().enumerate() {
        add_step(classes, place, step, into)?;
    }
    Ok(())
}

/// Adds the line of a function.
#[tactic(auto, using(crate::proofs::Kept::keeps_more))]
fn add_fun_line(number: usize, fun: &Fun, into: &mut Vec<u8>) -> Result<(), Memory>
    ensures ok { OnOk result (into.new.items ≡ into.old.items ++ fun_line number fun.now) }
    ensures err { OnErr result (Keeps into.old.items into.new.items) }
{
    add_behind(b"fun ", number as u64, into)?;
    add_behind(b" params ", u64::from(fun.params), into)?;
    add_behind(b" locals ", fun.locals.items().len() as u64, into)?;
    into.push(b'\n')?;
    Ok(())
}

/// Adds the line of an instruction. A listing is mostly made of it.
#[tactic(auto, using(crate::proofs::Kept::keeps_more))]
fn add_step(classes: &[Class], place: usize, step: &Step, into: &mut Vec<u8>) -> Result<(), Memory>
    ensures ok { OnOk result (into.new.items
        ≡ into.old.items ++ step_line classes.now place step.now) }
    ensures err { OnErr result (Keeps into.old.items into.new.items) }
{
    add_behind(b"  ", place as u64, into)?;
    add_words(classes, words_of(classes, &step.instr), into)?;
    into.push(b'\n')?;
    Ok(())
}

/// Adds the words of an instruction, each behind a space.
#[tactic(auto, using(crate::proofs::Kept::keeps_more))]
fn add_words(classes: &[Class], words: Words, into: &mut Vec<u8>) -> Result<(), Memory>
    ensures ok { OnOk result (into.new.items
        ≡ into.old.items ++ spaced (words_meant classes.now words.entry)) }
    ensures err { OnErr result (Keeps into.old.items into.new.items) }
{
    match words {
        Words::Alone(name) => add_word(name, into),
        Words::One(name, argument) => {
            add_word(name, into)?;
            add_argument(argument, into)
        }
        Words::Two(name, first, second) => {
            add_word(name, into)?;
            add_argument(first, into)?;
            add_argument(second, into)
        }
        Words::Kinds(name, kinds) => {
            add_word(name, into)?;
            add_argument(Argument::Count(kinds.len()), into)?;
            add_kinds(classes, kinds, into)
        }
    }
}

/// Adds an argument behind a space.
#[tactic(auto, using(crate::proofs::Kept::keeps_more))]
fn add_argument(argument: Argument, into: &mut Vec<u8>) -> Result<(), Memory>
    ensures ok { OnOk result (into.new.items
        ≡ into.old.items ++ 32 ∷ argument_word argument.entry) }
    ensures err { OnErr result (Keeps into.old.items into.new.items) }
{
    match argument {
        Argument::Word(word) => add_word(word, into),
        Argument::Number(n) => add_behind(b" ", u64::from(n), into),
        Argument::Count(n) => add_behind(b" ", n as u64, into),
        Argument::Signed(n) => {
            into.push(b' ')?;
            add_signed(n, into)
        }
    }
}

/// Adds the name of each kind behind a space.
#[tactic(auto, using(crate::proofs::Kept::keeps_more))]
fn add_kinds(classes: &[Class], kinds: &[Kind], into: &mut Vec<u8>) -> Result<(), Memory>
    ensures ok { OnOk result (into.new.items
        ≡ into.old.items ++ spaced (map (kind_name classes.now) kinds.now)) }
    ensures err { OnErr result (Keeps into.old.items into.new.items) }
{
    for kind in kinds {
        into.push(b' ')?;
        add_kind(classes, *kind, into)?;
    }
    Ok(())
}

/// Adds a word behind a space.
#[tactic(auto, using(crate::proofs::Kept::keeps_more))]
fn add_word(word: &[u8], into: &mut Vec<u8>) -> Result<(), Memory>
    ensures ok { OnOk result (into.new.items ≡ into.old.items ++ 32 ∷ word.now) }
    ensures err { OnErr result (Keeps into.old.items into.new.items) }
{
    into.push(b' ')?;
    into.extend_from_slice(word)?;
    Ok(())
}

/// Adds a number behind a text.
#[tactic(auto, using(crate::proofs::Kept::keeps_more))]
fn add_behind(text: &[u8], n: u64, into: &mut Vec<u8>) -> Result<(), Memory>
    ensures ok { OnOk result (into.new.items ≡ into.old.items ++ (text.now ++ decimal n)) }
    ensures err { OnErr result (Keeps into.old.items into.new.items) }
{
    into.extend_from_slice(text)?;
    add_number(n, into)
}

/// Adds a number in decimal.
fn add_number(n: u64, into: &mut Vec<u8>) -> Result<(), Memory>
    ensures ok { OnOk result (into.new.items ≡ into.old.items ++ decimal n) }
    ensures err { OnErr result (Keeps into.old.items into.new.items) }
{
    let mut digits = Buffer::new();
    into.extend_from_slice(digits.format(n).as_bytes())?;
    Ok(())
}

/// Adds a number with its sign in decimal.
fn add_signed(n: i64, into: &mut Vec<u8>) -> Result<(), Memory>
    ensures ok { OnOk result (into.new.items ≡ into.old.items ++ signed_decimal n) }
    ensures err { OnErr result (Keeps into.old.items into.new.items) }
{
    let mut digits = Buffer::new();
    into.extend_from_slice(digits.format(n).as_bytes())?;
    Ok(())
}
