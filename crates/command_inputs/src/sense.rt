//! The source of a file: its tree, or the line of its first fault.
ghost use Rattle.std.specs.Prelude.{◌≡◌, ◌≤◌, All, IfOk, MatchResult, length};
ghost use Rattle.ck_base.specs.declared.limits.TheConstants.{MAX_FILE_BYTES};
ghost use Rattle.ck_lexer.specs.Tokens.{AreTokens};
ghost use Rattle.command_inputs.specs.Sense.{Says};
ghost use Rattle.command_inputs.specs.Senses.{sense_of, wrong_text};

use ck_lexer::{LexFault, Token, tokens};
use ck_parser::{ParseFault, parse};
use ck_syntax::File;
use fixed_point::Memory;
use std::alloc::Global;

/// What is wrong with a file.
#[derive(Clone, Copy, PartialEq, Eq)]
pub enum Wrong {
    /// Somewhere no token begins.
    Lex,
    /// A token with which no file goes on.
    Syntax,
    /// A token that stands too deep.
    TooDeep,
}

impl Wrong {
    /// What its line says of it.
    pub fn text(self) -> &'static str
        ensures { result.now ≡ wrong_text self }
    {
        match self {
            Wrong::Lex => "lex",
            Wrong::Syntax => "syntax",
            Wrong::TooDeep => "too deep",
        }
    }
}

/// What reading a file says of it.
#[derive(Drop)]
pub(crate) enum Sense {
    /// Its tree, which is nowhere too deep.
    Tree(File),
    /// The line of its first fault, from 1, and what is wrong there.
    Refused { line: u32, wrong: Wrong },
}

/// What reading these bytes says of their file.
pub(crate) fn read_source(alloc: Global, bytes: &[u8]) -> Result<Sense, Memory>
    requires { length bytes.now ≤ MAX_FILE_BYTES }
    ensures { IfOk result (λ sense. Says bytes.now (sense_of sense)) }
{
    match tokens(alloc, bytes) {
        Ok(tokens) => grammar(alloc, bytes, tokens.as_slice()),
        Err(LexFault::Lex { at: _, line }) => Ok(Sense::Refused {
            line,
            wrong: Wrong::Lex,
        }),
        Err(LexFault::Memory(memory)) => Err(memory),
    }
}

/// The same of the tokens of these bytes.
fn grammar(alloc: Global, bytes: &[u8], tokens: &[Token]) -> Result<Sense, Memory>
    requires { AreTokens bytes.now tokens.now }
    ensures { IfOk result (λ sense. Says bytes.now (sense_of sense)) }
{
    match parse(alloc, tokens) {
        Ok(file) => Ok(Sense::Tree(file)),
        Err(ParseFault::Syntax(line)) => Ok(Sense::Refused {
            line,
            wrong: Wrong::Syntax,
        }),
        Err(ParseFault::TooDeep(line)) => Ok(Sense::Refused {
            line,
            wrong: Wrong::TooDeep,
        }),
        Err(ParseFault::Memory(memory)) => Err(memory),
    }
}
