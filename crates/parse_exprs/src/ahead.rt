//! Going past the token that begins a part, or goes on with one, to the depth behind it.
ghost use Rattle.std.specs.Prelude.{◌≡◌, ◌≤◌, ◌<◌, length, IfOk, IfSome};
ghost use Rattle.ck_base.specs.declared.limits.TheConstants.{MAX_NESTING};
ghost use Rattle.parse_exprs.specs.Ahead.{Enters, Fits, LooksForSuffix, LooksForLead, ReadsStart};
ghost use Rattle.parse_exprs.specs.Ahead.{LooksForOperator};
ghost use Rattle.parse_exprs.specs.Ahead.{LooksForChuck, LooksForBase, LooksForDeclaration};
ghost use Rattle.parse_exprs.specs.Operands.{IsShallowStart, suffix_of as as_suffix};

use crate::fault::Fault;
use crate::follow::{Follow, Suffix};
use crate::opening::{Lead, Opening, Start};
use crate::operand::begins_declaration;
use crate::tokens::{
    atom, chuck_at, deeper, eat_mark, expect_base, first, next, opening_of, operator_at,
};
use crate::type_name::{declared_name, head_base};
use ck_base::Text;
use ck_lexer::{Mark, Token};
use ck_syntax::{Base, BinaryOp, ChuckOp, DeclHead};
use std::alloc::Global;

/// The depth behind this mark, and what stands there, if the mark comes next.
pub fn enter<'a>(
    depth: u32,
    tokens: &'a [Token],
    mark: Mark,
) -> Result<Option<(u32, &'a [Token])>, Fault>
    requires { depth ≤ MAX_NESTING }
    ensures token { Enters depth mark tokens.now result }
    ensures fewer { IfOk result (λ o. IfSome o (λ x. length x.1.now < length tokens.now)) }
{
    let Some(behind) = eat_mark(tokens, mark) else {
        return Ok(None);
    };
    let inside = deeper(depth, tokens)?;
    Ok(Some((inside, behind)))
}

fn suffix_of(follow: Follow) -> Option<Suffix>
    ensures { result ≡ as_suffix follow }
{
    match follow {
        Follow::Call => Some(Suffix::Call),
        Follow::Index => Some(Suffix::Index),
        Follow::Member => Some(Suffix::Member),
        Follow::Postfix(operator) => Some(Suffix::Postfix(operator)),
        _ => None,
    }
}

/// What goes on with a Postfix, the depth behind it, and what stands there.
pub fn suffix<'a>(
    depth: u32,
    tokens: &'a [Token],
) -> Result<Option<(Suffix, u32, &'a [Token])>, Fault>
    requires { depth ≤ MAX_NESTING }
    ensures reads { LooksForSuffix depth tokens.now result }
    ensures fits { Fits tokens.now result }
{
    let (follow, behind) = next(tokens);
    let Some(suffix) = suffix_of(follow) else {
        return Ok(None);
    };
    let inside = deeper(depth, tokens)?;
    Ok(Some((suffix, inside, behind)))
}

/// What begins a Unary that is no Dur, its line, the depth behind it, and what stands there.
pub fn lead<'a>(
    depth: u32,
    tokens: &'a [Token],
) -> Result<Option<(Lead, u32, u32, &'a [Token])>, Fault>
    requires { depth ≤ MAX_NESTING }
    ensures reads { LooksForLead depth tokens.now result }
    ensures fits { IfOk result (λ o. IfSome o (λ x.
        (x.2 ≤ MAX_NESTING) × (length x.3.now < length tokens.now))) }
{
    let Some((token, behind)) = first(tokens) else {
        return Ok(None);
    };
    let lead = match opening_of(token) {
        Opening::Prefix(operator) => Lead::Prefix(operator),
        Opening::New => Lead::New,
        Opening::Spork => Lead::Spork,
        _ => return Ok(None),
    };
    let inside = deeper(depth, tokens)?;
    Ok(Some((lead, token.line, inside, behind)))
}

/// What begins a Primary, its line, and what stands behind it.
pub fn start<'a>(
    alloc: Global,
    depth: u32,
    tokens: &'a [Token],
) -> Result<(Start, u32, &'a [Token]), Fault>
    requires { depth ≤ MAX_NESTING }
    ensures reads { ReadsStart depth tokens.now result }
    ensures shallow { IfOk result (λ x. IsShallowStart x.0) }
    ensures fewer { IfOk result (λ x. length x.2.now < length tokens.now) }
{
    let Some((token, behind)) = first(tokens) else {
        return Err(Fault::Syntax(0));
    };
    if let Some(expr) = atom(alloc, token)? {
        return Ok((Start::Atom(expr), token.line, behind));
    }
    match opening_of(token) {
        Opening::Paren => Ok((Start::Paren(deeper(depth, tokens)?), token.line, behind)),
        Opening::Array => Ok((Start::Array(deeper(depth, tokens)?), token.line, behind)),
        _ => Err(Fault::Syntax(tokens.len())),
    }
}

/// The operator of this level that comes next, the depth behind it, and what stands there.
pub fn operator<'a>(
    number: u32,
    depth: u32,
    tokens: &'a [Token],
) -> Result<Option<(BinaryOp, u32, &'a [Token])>, Fault>
    requires { depth ≤ MAX_NESTING }
    ensures reads { LooksForOperator number depth tokens.now result }
    ensures fits { Fits tokens.now result }
{
    let Some((operator, behind)) = operator_at(tokens, number) else {
        return Ok(None);
    };
    let inside = deeper(depth, tokens)?;
    Ok(Some((operator, inside, behind)))
}

/// The chuck operator that comes next, the depth behind it, and what stands there.
pub fn chuck<'a>(
    depth: u32,
    tokens: &'a [Token],
) -> Result<Option<(ChuckOp, u32, &'a [Token])>, Fault>
    requires { depth ≤ MAX_NESTING }
    ensures reads { LooksForChuck depth tokens.now result }
    ensures fits { Fits tokens.now result }
{
    let Some((operator, behind)) = chuck_at(tokens) else {
        return Ok(None);
    };
    let inside = deeper(depth, tokens)?;
    Ok(Some((operator, inside, behind)))
}

/// The base of a declaration or `None` for `auto`, whether `static` stands before it, its line, and
/// what stands behind.
fn declared_base<'a>(
    alloc: Global,
    depth: u32,
    tokens: &'a [Token],
) -> Result<Option<(u32, bool, Option<Base>, &'a [Token])>, Fault>
    requires { depth ≤ MAX_NESTING }
    ensures reads { LooksForBase depth tokens.now result }
    ensures fewer { IfOk result (λ o. IfSome o (λ x. length x.3.now < length tokens.now)) }
{
    let Some((token, behind)) = first(tokens) else {
        return Ok(None);
    };
    let opening = opening_of(token);
    if let Opening::Static = opening {
        let (base, rest) = head_base(alloc, depth, behind)?;
        return Ok(Some((token.line, true, base, rest)));
    }
    if let Opening::Auto = opening {
        return Ok(Some((token.line, false, None, behind)));
    }
    if !begins_declaration(opening, behind) {
        return Ok(None);
    }
    let (base, rest) = expect_base(alloc, tokens)?;
    Ok(Some((token.line, false, Some(base), rest)))
}

/// The head of a declaration, its line, the name behind it, and what stands there, where an
/// operand begins with one.
pub fn declaration<'a>(
    alloc: Global,
    depth: u32,
    tokens: &'a [Token],
) -> Result<Option<(u32, DeclHead, Text, &'a [Token])>, Fault>
    requires { depth ≤ MAX_NESTING }
    ensures reads { LooksForDeclaration depth tokens.now result }
    ensures fewer { IfOk result (λ o. IfSome o (λ x. length x.3.now < length tokens.now)) }
{
    let Some((line, is_static, base, behind)) = declared_base(alloc, depth, tokens)? else {
        return Ok(None);
    };
    let (is_reference, name, rest) = declared_name(alloc, depth, behind)?;
    let head = DeclHead {
        is_static,
        base,
        is_reference,
    };
    Ok(Some((line, head, name, rest)))
}
