//! The one public call: the file that tokens are, or the line of their first fault.
ghost use Rattle.std.specs.Prelude.{◌≡◌, ◌≤◌, ◌<◌, ◌-◌, length, true, IfErr, IfOk};
ghost use Rattle.ck_parser.specs.Depth.{file_depths};
ghost use Rattle.ck_parser.specs.FirstFault.{IsFirstFault};
ghost use Rattle.ck_parser.specs.Grammar.{IsFile};
ghost use Rattle.ck_parser.specs.Parse.{AreShallow, StandsAt, ends_once};
ghost use Rattle.ck_syntax.specs.View.{view_file};

use crate::item::file;
use crate::parse_fault::ParseFault;
use ck_lexer::Token;
use ck_syntax::File;
use parse_exprs::Fault;
use std::alloc::Global;

/// The line of the token from which so many are left.
fn line_at(tokens: &[Token], left: usize) -> u32
    requires some { 0 < left }
    requires within { left ≤ length tokens.now }
    ensures { StandsAt tokens.now (length tokens.now - left) result }
{
    tokens[tokens.len() - left].line
}

/// The file that the tokens are.
///
/// `Syntax` comes exactly where a first token is one with which no file goes on, and `TooDeep`
/// exactly where a first token stands too deep. Of two faults the one that stands first counts,
/// and at one token `Syntax`. `Memory` may come in place of any answer.
pub fn parse(alloc: Global, tokens: &[Token]) -> Result<File, ParseFault>
    requires { ends_once tokens.now ≡ true }
    ensures tree { IfOk result (λ file. IsFile tokens.now (view_file file)) }
    ensures shallow { IfOk result (λ file. AreShallow (file_depths (view_file file))) }
    ensures fault { IfErr result (λ fault. IsFirstFault tokens.now fault) }
{
    match file(alloc, tokens) {
        Ok(file) => Ok(file),
        Err(Fault::Syntax(left)) => Err(ParseFault::Syntax(line_at(tokens, left))),
        Err(Fault::TooDeep(left)) => Err(ParseFault::TooDeep(line_at(tokens, left))),
        Err(Fault::Memory(memory)) => Err(ParseFault::Memory(memory)),
    }
}
