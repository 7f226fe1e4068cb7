//! Types and the heads of declarations.
ghost use Rattle.std.specs.Prelude.{◌≤◌, ◌<◌, length, IfOk};
ghost use Rattle.ck_base.specs.declared.limits.TheConstants.{MAX_NESTING};
ghost use Rattle.parse_exprs.specs.Machine.{pairs, a_type, a_head_base, declared};
ghost use Rattle.parse_exprs.specs.Reads.{Reads, ReadsPart};

use crate::fault::{Fault, Parsed};
use crate::tokens::{deeper, eat_mark, eat_word, expect_base, expect_mark, expect_name};
use ck_base::Text;
use ck_lexer::{Mark, Token, Word};
use ck_syntax::{Base, TypeName};
use std::alloc::Global;

/// How many pairs of brackets come next.
pub fn bracket_pairs<'a>(depth: u32, tokens: &'a [Token]) -> Parsed<'a, usize>
    requires { depth ≤ MAX_NESTING }
    ensures reads { ReadsPart (pairs depth 0) (λ x. x) tokens.now result }
    ensures fewer { IfOk result (λ x. length x.1.now ≤ length tokens.now) }
{
    let mut count = 0;
    let mut rest = tokens;
    while let Some(open) = eat_mark(rest, Mark::LeftBracket) {
        deeper(depth, rest)?;
        rest = expect_mark(open, Mark::RightBracket)?;
        count += 1;
    }
    Ok((count, rest))
}

/// The type that comes next.
pub fn type_name<'a>(alloc: Global, depth: u32, tokens: &'a [Token]) -> Parsed<'a, TypeName>
    requires { depth ≤ MAX_NESTING }
    ensures reads { ReadsPart (a_type depth) (λ x. x) tokens.now result }
    ensures fewer { IfOk result (λ x. length x.1.now < length tokens.now) }
{
    let (base, behind) = expect_base(alloc, tokens)?;
    let (brackets, rest) = bracket_pairs(depth, behind)?;
    Ok((TypeName { base, brackets }, rest))
}

/// The base that comes next, or `None` for `auto`.
pub fn head_base<'a>(alloc: Global, depth: u32, tokens: &'a [Token]) -> Parsed<'a, Option<Base>>
    requires { depth ≤ MAX_NESTING }
    ensures reads { ReadsPart (a_head_base depth) (λ x. x) tokens.now result }
    ensures fewer { IfOk result (λ x. length x.1.now < length tokens.now) }
{
    if let Some(rest) = eat_word(tokens, Word::Auto) {
        Ok((None, rest))
    } else {
        let (base, rest) = expect_base(alloc, tokens)?;
        Ok((Some(base), rest))
    }
}

/// Whether `@` comes next, and the name behind it.
pub fn declared_name<'a>(
    alloc: Global,
    depth: u32,
    tokens: &'a [Token],
) -> Result<(bool, Text, &'a [Token]), Fault>
    requires { depth ≤ MAX_NESTING }
    ensures reads { Reads (declared depth) (λ x k. k x.0 x.1) (λ x. x.2.now) tokens.now result }
    ensures fewer { IfOk result (λ x. length x.2.now < length tokens.now) }
{
    if let Some(behind) = eat_mark(tokens, Mark::At) {
        let (name, rest) = expect_name(alloc, behind)?;
        Ok((true, name, rest))
    } else {
        let (name, rest) = expect_name(alloc, tokens)?;
        Ok((false, name, rest))
    }
}
