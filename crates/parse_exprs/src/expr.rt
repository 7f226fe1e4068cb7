//! Reading expressions.
//!
//! An operator stands one deeper than what it goes on with, up to the end of the whole
//! expression, so the functions from a Postfix to a Cond tell the depth behind them too.
ghost use Rattle.std.specs.Prelude.{◌≤◌, ◌<◌, length, IfOk};
ghost use Rattle.ck_base.specs.declared.limits.TheConstants.{MAX_NESTING};
ghost use Rattle.parse_exprs.specs.Machine.{a_cond, a_declr, an_expr, brackets as some_brackets};
ghost use Rattle.parse_exprs.specs.Machine.{arguments as some_arguments, chucks, declr_rest};
ghost use Rattle.parse_exprs.specs.Machine.{new_rest, postfix as a_postfix, sizes as some_sizes};
ghost use Rattle.parse_exprs.specs.Machine.{some_exprs};
ghost use Rattle.parse_exprs.specs.Machine.{unary as a_unary};
ghost use Rattle.parse_exprs.specs.Operands.{IsShallow, a_dur, a_level, all_closed};
ghost use Rattle.parse_exprs.specs.Operands.{closed, led as is_led};
ghost use Rattle.parse_exprs.specs.Operands.{optional, suffixed, tree_of};
ghost use Rattle.parse_exprs.specs.Parts.{ReadsExpr, ReadsExprs, ReadsOpen, ReadsOperand, ReadsTo};
ghost use Rattle.parse_exprs.specs.Reads.{ReadsPart};
ghost use Rattle.parse_exprs.specs.Tokens.{a_mark};
ghost use Rattle.ck_syntax.specs.Tree.{no_exprs, no_brackets};
ghost use Rattle.ck_syntax.specs.View.{view_declr, view_option, view_tail, brackets_of};

use crate::ahead::{chuck, declaration, enter, lead, operator, start, suffix};
use crate::fault::{Parsed, ParsedTo};
use crate::follow::Suffix;
use crate::heap::{push, push_boxed};
use crate::node;
use crate::opening::{Lead, Start};
use crate::operand::Operand;
use crate::tokens::{eat_mark, expect_base, expect_mark, expect_name};
use crate::type_name::type_name;
use ck_base::List;
use ck_lexer::{Mark, Token};
use ck_syntax::{Base, Bracket, Declarator, DeclaratorTail, Expr};
use std::alloc::Global;

/// `Expr`
#[cycle(exprs)]
pub fn expr<'a>(alloc: Global, depth: u32, tokens: &'a [Token]) -> Parsed<'a, Box<Expr>>
    requires { depth ≤ MAX_NESTING }
    ensures reads { ReadsExpr (an_expr depth) tokens.now result }
    ensures fewer { IfOk result (λ x. length x.1.now < length tokens.now) }
{
    let (first, behind) = operand(alloc, depth, tokens)?;
    let (left, inside) = node::operand(alloc, first, depth)?;
    chuck_rest(alloc, inside, left, behind)
}

/// `Expr (',' Expr)*`
#[cycle(exprs)]
pub fn exprs<'a>(alloc: Global, depth: u32, tokens: &'a [Token]) -> Parsed<'a, List<Expr>>
    requires { depth ≤ MAX_NESTING }
    ensures reads { ReadsExprs (some_exprs depth) tokens.now result }
    ensures fewer { IfOk result (λ x. length x.1.now < length tokens.now) }
{
    let (first, mut rest) = expr(alloc, depth, tokens)?;
    let mut items = Vec::new(alloc);
    push_boxed(&mut items, first)?;
    while let Some(behind) = eat_mark(rest, Mark::Comma) {
        let (item, left) = expr(alloc, depth, behind)?;
        push_boxed(&mut items, item)?;
        rest = left;
    }
    Ok((List::from_vec(items), rest))
}

/// An operand, which may be a declaration, and the depth behind a value.
#[cycle(exprs)]
pub fn operand<'a>(alloc: Global, depth: u32, tokens: &'a [Token]) -> Parsed<'a, Operand>
    requires { depth ≤ MAX_NESTING }
    ensures reads { ReadsOperand depth tokens.now result }
    ensures fewer { IfOk result (λ x. length x.1.now < length tokens.now) }
    ensures shallow { IfOk result (λ x. IsShallow x.0) }
{
    if let Some((line, head, name, behind)) = declaration(alloc, depth, tokens)? {
        let (tail, rest) = declarator_tail(alloc, depth, behind)?;
        let declarator = Declarator { name, tail };
        let declared = Operand::Declaration {
            line,
            head,
            declarator,
        };
        Ok((declared, rest))
    } else {
        let (expr, rest, inside) = cond(alloc, depth, tokens)?;
        Ok((
            Operand::Value {
                expr,
                depth: inside,
            },
            rest,
        ))
    }
}

/// `(ChuckOp Operand)*` behind `left`.
#[cycle(exprs)]
pub fn chuck_rest<'a>(
    alloc: Global,
    depth: u32,
    left: Box<Expr>,
    tokens: &'a [Token],
) -> Parsed<'a, Box<Expr>>
    requires { depth ≤ MAX_NESTING }
    ensures reads { ReadsExpr (chucks depth (tree_of left)) tokens.now result }
    ensures fewer { IfOk result (λ x. length x.1.now ≤ length tokens.now) }
{
    let mut whole = left;
    let mut rest = tokens;
    let mut reached = depth;
    while let Some((operator, inside, behind)) = chuck(reached, rest)? {
        let (next, end) = operand(alloc, inside, behind)?;
        let (right, deepest) = node::operand(alloc, next, inside)?;
        whole = node::chuck(alloc, whole, operator, right)?;
        rest = end;
        reached = deepest;
    }
    Ok((whole, rest))
}

/// `Declr`
pub fn declarator<'a>(alloc: Global, depth: u32, tokens: &'a [Token]) -> Parsed<'a, Declarator>
    requires { depth ≤ MAX_NESTING }
    ensures reads { ReadsPart (a_declr depth) view_declr tokens.now result }
    ensures fewer { IfOk result (λ x. length x.1.now < length tokens.now) }
{
    let (name, behind) = expect_name(alloc, tokens)?;
    let (tail, rest) = declarator_tail(alloc, depth, behind)?;
    Ok((Declarator { name, tail }, rest))
}

/// What stands behind the name of a declarator.
#[cycle(exprs)]
fn declarator_tail<'a>(alloc: Global, depth: u32, tokens: &'a [Token]) -> Parsed<'a, DeclaratorTail>
    requires { depth ≤ MAX_NESTING }
    ensures reads { (name : _) → ReadsPart (declr_rest depth name) (view_tail name)
        tokens.now result }
    ensures fewer { IfOk result (λ x. length x.1.now ≤ length tokens.now) }
{
    if let Some((inside, behind)) = enter(depth, tokens, Mark::LeftParen)? {
        let (arguments, rest) = arguments(alloc, inside, behind)?;
        Ok((DeclaratorTail::Arguments(arguments), rest))
    } else {
        let (brackets, rest) = brackets(alloc, depth, tokens)?;
        Ok((DeclaratorTail::Brackets(brackets), rest))
    }
}

/// `('[' Expr? ']')*`
#[cycle(exprs)]
fn brackets<'a>(alloc: Global, depth: u32, tokens: &'a [Token]) -> Parsed<'a, List<Bracket>>
    requires { depth ≤ MAX_NESTING }
    ensures reads { ReadsPart (some_brackets depth no_brackets) (brackets_of no_brackets)
        tokens.now result }
    ensures fewer { IfOk result (λ x. length x.1.now ≤ length tokens.now) }
{
    let mut all = Vec::new(alloc);
    let mut rest = tokens;
    while let Some((inside, behind)) = enter(depth, rest, Mark::LeftBracket)? {
        let (size, end) = optional_expr(alloc, inside, behind, Mark::RightBracket)?;
        push(&mut all, node::bracket(size))?;
        rest = end;
    }
    Ok((List::from_vec(all), rest))
}

/// `Expr`, and this mark behind it.
#[cycle(exprs)]
pub fn closed_expr<'a>(
    alloc: Global,
    depth: u32,
    tokens: &'a [Token],
    mark: Mark,
) -> Parsed<'a, Box<Expr>>
    requires { depth ≤ MAX_NESTING }
    ensures reads { ReadsExpr (closed depth (a_mark mark)) tokens.now result }
    ensures fewer { IfOk result (λ x. length x.1.now < length tokens.now) }
{
    let (inner, behind) = expr(alloc, depth, tokens)?;
    let rest = expect_mark(behind, mark)?;
    Ok((inner, rest))
}

/// `Expr?`, and this mark behind it.
#[cycle(exprs)]
pub fn optional_expr<'a>(
    alloc: Global,
    depth: u32,
    tokens: &'a [Token],
    mark: Mark,
) -> Parsed<'a, Option<Box<Expr>>>
    requires { depth ≤ MAX_NESTING }
    ensures reads { ReadsPart (optional depth (a_mark mark)) view_option tokens.now result }
    ensures fewer { IfOk result (λ x. length x.1.now < length tokens.now) }
{
    if let Some(rest) = eat_mark(tokens, mark) {
        Ok((None, rest))
    } else {
        let (inner, rest) = closed_expr(alloc, depth, tokens, mark)?;
        Ok((Some(inner), rest))
    }
}

/// `Expr (',' Expr)*`, and this mark behind them.
#[cycle(exprs)]
pub fn closed_exprs<'a>(
    alloc: Global,
    depth: u32,
    tokens: &'a [Token],
    mark: Mark,
) -> Parsed<'a, List<Expr>>
    requires { depth ≤ MAX_NESTING }
    ensures reads { ReadsExprs (all_closed depth (a_mark mark)) tokens.now result }
    ensures fewer { IfOk result (λ x. length x.1.now < length tokens.now) }
{
    let (items, behind) = exprs(alloc, depth, tokens)?;
    let rest = expect_mark(behind, mark)?;
    Ok((items, rest))
}

/// `(Expr (',' Expr)*)? ')'`
#[cycle(exprs)]
fn arguments<'a>(alloc: Global, depth: u32, tokens: &'a [Token]) -> Parsed<'a, List<Expr>>
    requires { depth ≤ MAX_NESTING }
    ensures reads { ReadsExprs (some_arguments depth) tokens.now result }
    ensures fewer { IfOk result (λ x. length x.1.now < length tokens.now) }
{
    if let Some(rest) = eat_mark(tokens, Mark::RightParen) {
        Ok((List::from_vec(Vec::new(alloc)), rest))
    } else {
        closed_exprs(alloc, depth, tokens, Mark::RightParen)
    }
}

/// `('[' Expr ']')*`
#[cycle(exprs)]
fn sizes<'a>(alloc: Global, depth: u32, tokens: &'a [Token]) -> Parsed<'a, List<Expr>>
    requires { depth ≤ MAX_NESTING }
    ensures reads { ReadsExprs (some_sizes depth no_exprs) tokens.now result }
    ensures fewer { IfOk result (λ x. length x.1.now ≤ length tokens.now) }
{
    let mut all = Vec::new(alloc);
    let mut rest = tokens;
    while let Some((inside, behind)) = enter(depth, rest, Mark::LeftBracket)? {
        let (size, end) = closed_expr(alloc, inside, behind, Mark::RightBracket)?;
        push_boxed(&mut all, size)?;
        rest = end;
    }
    Ok((List::from_vec(all), rest))
}

/// What stands behind the base of a `new`.
#[cycle(exprs)]
fn object<'a>(
    alloc: Global,
    line: u32,
    depth: u32,
    base: Base,
    tokens: &'a [Token],
) -> Parsed<'a, Box<Expr>>
    requires { depth ≤ MAX_NESTING }
    ensures reads { ReadsExpr (new_rest depth line base) tokens.now result }
    ensures fewer { IfOk result (λ x. length x.1.now ≤ length tokens.now) }
{
    if let Some((inside, behind)) = enter(depth, tokens, Mark::LeftParen)? {
        let (arguments, rest) = arguments(alloc, inside, behind)?;
        Ok((node::object_with(alloc, line, base, arguments)?, rest))
    } else {
        let (sizes, rest) = sizes(alloc, depth, tokens)?;
        Ok((node::object(alloc, line, base, sizes)?, rest))
    }
}

/// `Primary`
#[cycle(exprs)]
fn primary<'a>(alloc: Global, depth: u32, tokens: &'a [Token]) -> Parsed<'a, Box<Expr>>
    requires { depth ≤ MAX_NESTING }
    ensures reads { ReadsOpen (a_postfix depth) depth tokens.now result }
    ensures fewer { IfOk result (λ x. length x.1.now < length tokens.now) }
{
    let (start, line, behind) = start(alloc, depth, tokens)?;
    match start {
        Start::Atom(expr) => Ok((expr, behind)),
        Start::Paren(inside) => {
            let (inner, rest) = closed_expr(alloc, inside, behind, Mark::RightParen)?;
            Ok((node::paren(alloc, line, inner)?, rest))
        }
        Start::Array(inside) => {
            let (items, rest) = closed_exprs(alloc, inside, behind, Mark::RightBracket)?;
            Ok((node::array(alloc, line, items)?, rest))
        }
    }
}

/// What stands behind the first token of this suffix of `left`.
#[cycle(exprs)]
fn with_suffix<'a>(
    alloc: Global,
    depth: u32,
    left: Box<Expr>,
    suffix: Suffix,
    tokens: &'a [Token],
) -> Parsed<'a, Box<Expr>>
    requires { depth ≤ MAX_NESTING }
    ensures reads { ReadsOpen (suffixed suffix depth (tree_of left)) depth tokens.now result }
    ensures fewer { IfOk result (λ x. length x.1.now ≤ length tokens.now) }
{
    match suffix {
        Suffix::Call => {
            let (arguments, rest) = arguments(alloc, depth, tokens)?;
            Ok((node::call(alloc, left, arguments)?, rest))
        }
        Suffix::Index => {
            let (index, rest) = closed_expr(alloc, depth, tokens, Mark::RightBracket)?;
            Ok((node::index(alloc, left, index)?, rest))
        }
        Suffix::Member => {
            let (name, rest) = expect_name(alloc, tokens)?;
            Ok((node::member(alloc, left, name)?, rest))
        }
        Suffix::Postfix(operator) => Ok((node::postfix(alloc, left, operator)?, tokens)),
    }
}

/// `Postfix`
#[cycle(exprs)]
fn postfix<'a>(alloc: Global, depth: u32, tokens: &'a [Token]) -> ParsedTo<'a, Box<Expr>>
    requires { depth ≤ MAX_NESTING }
    ensures reads { ReadsTo (a_postfix depth) tokens.now result }
    ensures fits { IfOk result (λ x. (length x.1.now < length tokens.now) × (x.2 ≤ MAX_NESTING)) }
{
    let (mut whole, mut rest) = primary(alloc, depth, tokens)?;
    let mut reached = depth;
    while let Some((next, inside, behind)) = suffix(reached, rest)? {
        let (longer, end) = with_suffix(alloc, inside, whole, next, behind)?;
        whole = longer;
        rest = end;
        reached = inside;
    }
    Ok((whole, rest, reached))
}

/// `Dur`
#[cycle(exprs)]
fn dur<'a>(alloc: Global, depth: u32, tokens: &'a [Token]) -> ParsedTo<'a, Box<Expr>>
    requires { depth ≤ MAX_NESTING }
    ensures reads { ReadsTo (a_dur depth) tokens.now result }
    ensures fits { IfOk result (λ x. (length x.1.now < length tokens.now) × (x.2 ≤ MAX_NESTING)) }
{
    let (mut whole, mut rest, mut reached) = postfix(alloc, depth, tokens)?;
    while let Some((inside, behind)) = enter(reached, rest, Mark::ColonColon)? {
        let (unit, end, deepest) = postfix(alloc, inside, behind)?;
        whole = node::dur(alloc, whole, unit)?;
        rest = end;
        reached = deepest;
    }
    Ok((whole, rest, reached))
}

/// What stands behind the first token of a Unary that is no Dur.
#[cycle(exprs)]
fn led<'a>(
    alloc: Global,
    depth: u32,
    lead: Lead,
    line: u32,
    tokens: &'a [Token],
) -> ParsedTo<'a, Box<Expr>>
    requires { depth ≤ MAX_NESTING }
    ensures reads { ReadsTo (is_led lead depth line) tokens.now result }
    ensures fits { IfOk result (λ x. (length x.1.now < length tokens.now) × (x.2 ≤ MAX_NESTING)) }
{
    match lead {
        Lead::Prefix(operator) => {
            let (inner, rest, reached) = unary(alloc, depth, tokens)?;
            Ok((node::prefix(alloc, line, operator, inner)?, rest, reached))
        }
        Lead::New => {
            let (base, behind) = expect_base(alloc, tokens)?;
            let (object, rest) = object(alloc, line, depth, base, behind)?;
            Ok((object, rest, depth))
        }
        Lead::Spork => {
            let behind = expect_mark(tokens, Mark::Tilde)?;
            let (call, rest, reached) = postfix(alloc, depth, behind)?;
            Ok((node::spork(alloc, line, call)?, rest, reached))
        }
    }
}

/// `Unary`
#[cycle(exprs)]
fn unary<'a>(alloc: Global, depth: u32, tokens: &'a [Token]) -> ParsedTo<'a, Box<Expr>>
    requires { depth ≤ MAX_NESTING }
    ensures reads { ReadsTo (a_unary depth) tokens.now result }
    ensures fits { IfOk result (λ x. (length x.1.now < length tokens.now) × (x.2 ≤ MAX_NESTING)) }
{
    if let Some((next, line, inside, behind)) = lead(depth, tokens)? {
        led(alloc, inside, next, line, behind)
    } else {
        dur(alloc, depth, tokens)
    }
}

/// `Cast`
#[cycle(exprs)]
fn cast<'a>(alloc: Global, depth: u32, tokens: &'a [Token]) -> ParsedTo<'a, Box<Expr>>
    requires { depth ≤ MAX_NESTING }
    ensures reads { ReadsTo (a_level 0 depth) tokens.now result }
    ensures fits { IfOk result (λ x. (length x.1.now < length tokens.now) × (x.2 ≤ MAX_NESTING)) }
{
    let (mut whole, mut rest, mut reached) = unary(alloc, depth, tokens)?;
    while let Some((inside, behind)) = enter(reached, rest, Mark::Dollar)? {
        let (target, end) = type_name(alloc, inside, behind)?;
        whole = node::cast(alloc, whole, target)?;
        rest = end;
        reached = inside;
    }
    Ok((whole, rest, reached))
}

/// What the operators of the levels below `number` join, from the tightest.
#[cycle(exprs)]
fn level<'a>(alloc: Global, number: u32, depth: u32, tokens: &'a [Token]) -> ParsedTo<'a, Box<Expr>>
    requires depth { depth ≤ MAX_NESTING }
    requires number { number ≤ 10 }
    ensures reads { ReadsTo (a_level number depth) tokens.now result }
    ensures fits { IfOk result (λ x. (length x.1.now < length tokens.now) × (x.2 ≤ MAX_NESTING)) }
{
    if number == 0 {
        return cast(alloc, depth, tokens);
    }
    let tighter = number - 1;
    let (mut whole, mut rest, mut reached) = level(alloc, tighter, depth, tokens)?;
    while let Some((next, inside, behind)) = operator(tighter, reached, rest)? {
        let (right, end, deepest) = level(alloc, tighter, inside, behind)?;
        whole = node::binary(alloc, whole, next, right)?;
        rest = end;
        reached = deepest;
    }
    Ok((whole, rest, reached))
}

/// `Cond`
#[cycle(exprs)]
fn cond<'a>(alloc: Global, depth: u32, tokens: &'a [Token]) -> ParsedTo<'a, Box<Expr>>
    requires { depth ≤ MAX_NESTING }
    ensures reads { ReadsTo (a_cond depth) tokens.now result }
    ensures fits { IfOk result (λ x. (length x.1.now < length tokens.now) × (x.2 ≤ MAX_NESTING)) }
{
    let (test, behind, reached) = level(alloc, 10, depth, tokens)?;
    if let Some((inside, question)) = enter(reached, behind, Mark::Question)? {
        let (then, colon) = closed_expr(alloc, inside, question, Mark::Colon)?;
        let (otherwise, rest, deepest) = cond(alloc, inside, colon)?;
        Ok((node::choice(alloc, test, then, otherwise)?, rest, deepest))
    } else {
        Ok((test, behind, reached))
    }
}
