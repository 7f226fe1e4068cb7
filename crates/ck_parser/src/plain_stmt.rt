//! Statements with no other statement inside, and the heads of those that have one.
ghost use Rattle.std.specs.Prelude.{◌≡◌, ◌≤◌, ◌<◌, true, length, IfOk, IfSome};
ghost use Rattle.ck_base.specs.declared.limits.TheConstants.{MAX_NESTING};
ghost use Rattle.ck_parser.specs.Statements.{FindsColon, ReadsStmt, ReadsStart, ReadsForRest};
ghost use Rattle.ck_parser.specs.Statements.{stmt_of};
ghost use Rattle.ck_parser.specs.Statements.{a_for_start, after_print};
ghost use Rattle.ck_parser.specs.Statements.{after_return, other_declrs};
ghost use Rattle.ck_parser.specs.Statements.{do_end as a_do_end, has_plain, has_stmt};
ghost use Rattle.ck_parser.specs.Statements.{next_line as line_at};
ghost use Rattle.parse_exprs.specs.Machine.{a_stmt, an_expr_stmt, a_test, chucks, declares_or};
ghost use Rattle.parse_exprs.specs.Machine.{each_or, each_pairs, empty_pairs as some_pairs};
ghost use Rattle.parse_exprs.specs.Machine.{simple_end};
ghost use Rattle.parse_exprs.specs.Operands.{tree_of};
ghost use Rattle.parse_exprs.specs.Parts.{ReadsExpr};
ghost use Rattle.parse_exprs.specs.Reads.{ReadsPart};
ghost use Rattle.ck_syntax.specs.Tree.{no_brackets, no_declrs};
ghost use Rattle.ck_syntax.specs.View.{brackets_of, view_declr, declrs_of};

use crate::stmt_node::{ForStart, do_until, do_while, node, return_value, simple};
use ck_base::List;
use ck_lexer::{Mark, Token, Word};
use ck_syntax::{Bracket, DeclHead, Declarator, DeclaratorTail, Expr, LoopItem, Stmt, StmtKind};
use parse_exprs::expr::{
    chuck_rest, closed_expr, closed_exprs, declarator, operand, optional_expr,
};
use parse_exprs::heap::push;
use parse_exprs::node::declaration;
use parse_exprs::tokens::{
    deeper, eat_mark, eat_word, expect_mark, expect_word, first, opening_of,
};
use parse_exprs::{Fault, Opening, Operand, Parsed};
use std::alloc::Global;

/// Whether a statement begins with the next token.
pub fn begins_stmt(tokens: &[Token]) -> bool
    ensures { result ≡ has_stmt tokens.now }
{
    let Some((token, _)) = first(tokens) else {
        return false;
    };
    match opening_of(token) {
        Opening::Fun | Opening::Class | Opening::Public | Opening::Nothing => false,
        _ => true,
    }
}

fn next_line(tokens: &[Token]) -> u32
    ensures { result ≡ line_at tokens.now }
{
    match first(tokens) {
        Some((token, _)) => token.line,
        None => 0,
    }
}

/// A `<<< >>>`, behind its first mark.
fn print_stmt<'a>(
    alloc: Global,
    line: u32,
    depth: u32,
    tokens: &'a [Token],
) -> Parsed<'a, Box<Stmt>>
    requires { depth ≤ MAX_NESTING }
    ensures reads { ReadsStmt (after_print depth line) tokens.now result }
    ensures fewer { IfOk result (λ x. length x.1.now < length tokens.now) }
{
    let (items, behind) = closed_exprs(alloc, depth, tokens, Mark::PrintClose)?;
    let rest = expect_mark(behind, Mark::Semicolon)?;
    Ok((node(alloc, line, StmtKind::Print(items))?, rest))
}

/// A `return`, behind its word.
fn return_stmt<'a>(
    alloc: Global,
    line: u32,
    depth: u32,
    tokens: &'a [Token],
) -> Parsed<'a, Box<Stmt>>
    requires { depth ≤ MAX_NESTING }
    ensures reads { ReadsStmt (after_return depth line) tokens.now result }
    ensures fewer { IfOk result (λ x. length x.1.now < length tokens.now) }
{
    let (value, rest) = optional_expr(alloc, depth, tokens, Mark::Semicolon)?;
    Ok((return_value(alloc, line, value)?, rest))
}

/// The rest of a whole expression and its semicolon, behind what is `left` of its next operator.
fn simple_stmt<'a>(
    alloc: Global,
    depth: u32,
    at: u32,
    left: Box<Expr>,
    tokens: &'a [Token],
) -> Parsed<'a, Box<Stmt>>
    requires shallow { depth ≤ MAX_NESTING }
    requires at { at ≤ MAX_NESTING }
    ensures reads { ReadsStmt (λ k. chucks at (tree_of left) (simple_end depth k))
        tokens.now result }
    ensures fewer { IfOk result (λ x. length x.1.now < length tokens.now) }
{
    let (expr, close) = chuck_rest(alloc, at, left, tokens)?;
    let rest = expect_mark(close, Mark::Semicolon)?;
    Ok((simple(alloc, expr)?, rest))
}

/// The declarators of a statement, behind the comma after the first.
fn declarators<'a>(
    alloc: Global,
    depth: u32,
    first: Declarator,
    tokens: &'a [Token],
) -> Parsed<'a, List<Declarator>>
    requires { depth ≤ MAX_NESTING }
    ensures reads { ReadsPart (other_declrs depth (view_declr first)) (declrs_of no_declrs)
        tokens.now result }
    ensures fewer { IfOk result (λ x. length x.1.now < length tokens.now) }
{
    let (second, mut rest) = declarator(alloc, depth, tokens)?;
    let mut all = Vec::new(alloc);
    push(&mut all, first)?;
    push(&mut all, second)?;
    while let Some(behind) = eat_mark(rest, Mark::Comma) {
        let (next, end) = declarator(alloc, depth, behind)?;
        push(&mut all, next)?;
        rest = end;
    }
    Ok((List::from_vec(all), rest))
}

/// The rest of a statement behind the declaration that begins it.
fn declare_stmt<'a>(
    alloc: Global,
    depth: u32,
    line: u32,
    head: DeclHead,
    first: Declarator,
    tokens: &'a [Token],
) -> Parsed<'a, Box<Stmt>>
    requires { depth ≤ MAX_NESTING }
    ensures reads { ReadsStmt (λ k. declares_or depth k line head (view_declr first))
        tokens.now result }
    ensures fewer { IfOk result (λ x. length x.1.now < length tokens.now) }
{
    if let Some(behind) = eat_mark(tokens, Mark::Comma) {
        let (declarators, close) = declarators(alloc, depth, first, behind)?;
        let rest = expect_mark(close, Mark::Semicolon)?;
        let stmt = node(alloc, line, StmtKind::Declare { head, declarators })?;
        Ok((stmt, rest))
    } else {
        let left = declaration(alloc, line, head, first)?;
        simple_stmt(alloc, depth, depth, left, tokens)
    }
}

/// A whole expression, or none, and a semicolon.
pub fn expr_stmt<'a>(alloc: Global, depth: u32, tokens: &'a [Token]) -> Parsed<'a, Box<Stmt>>
    requires { depth ≤ MAX_NESTING }
    ensures reads { ReadsStmt (an_expr_stmt depth) tokens.now result }
    ensures fewer { IfOk result (λ x. length x.1.now < length tokens.now) }
{
    if let Some(rest) = eat_mark(tokens, Mark::Semicolon) {
        let line = next_line(tokens);
        return Ok((node(alloc, line, StmtKind::Empty)?, rest));
    }
    let (first, behind) = operand(alloc, depth, tokens)?;
    match first {
        Operand::Declaration {
            line,
            head,
            declarator,
        } => declare_stmt(alloc, depth, line, head, declarator, behind),
        Operand::Value { expr, depth: at } => simple_stmt(alloc, depth, at, expr, behind),
    }
}

/// A statement with no other inside.
pub fn plain_stmt<'a>(alloc: Global, depth: u32, tokens: &'a [Token]) -> Parsed<'a, Box<Stmt>>
    requires shallow { depth ≤ MAX_NESTING }
    requires plain { has_plain tokens.now ≡ true }
    ensures reads { ReadsStmt (a_stmt depth) tokens.now result }
    ensures fewer { IfOk result (λ x. length x.1.now < length tokens.now) }
{
    let Some((token, behind)) = first(tokens) else {
        return Err(Fault::Syntax(0));
    };
    let line = token.line;
    match opening_of(token) {
        Opening::Print => print_stmt(alloc, line, depth, behind),
        Opening::Return => return_stmt(alloc, line, depth, behind),
        Opening::Break => {
            let rest = expect_mark(behind, Mark::Semicolon)?;
            Ok((node(alloc, line, StmtKind::Break)?, rest))
        }
        Opening::Continue => {
            let rest = expect_mark(behind, Mark::Semicolon)?;
            Ok((node(alloc, line, StmtKind::Continue)?, rest))
        }
        _ => expr_stmt(alloc, depth, tokens),
    }
}

/// An expression in parentheses, one deeper than `depth`.
pub fn parenthesized<'a>(alloc: Global, depth: u32, tokens: &'a [Token]) -> Parsed<'a, Box<Expr>>
    requires { depth ≤ MAX_NESTING }
    ensures reads { ReadsExpr (a_test depth) tokens.now result }
    ensures fewer { IfOk result (λ x. length x.1.now < length tokens.now) }
{
    let open = expect_mark(tokens, Mark::LeftParen)?;
    let inside = deeper(depth, tokens)?;
    closed_expr(alloc, inside, open, Mark::RightParen)
}

/// The rest of a `do`, behind its body.
pub fn do_end<'a>(
    alloc: Global,
    line: u32,
    depth: u32,
    body: Box<Stmt>,
    tokens: &'a [Token],
) -> Parsed<'a, Box<Stmt>>
    requires { depth ≤ MAX_NESTING }
    ensures reads { ReadsStmt (a_do_end depth line (stmt_of body)) tokens.now result }
    ensures fewer { IfOk result (λ x. length x.1.now < length tokens.now) }
{
    if let Some(behind) = eat_word(tokens, Word::While) {
        let (test, close) = parenthesized(alloc, depth, behind)?;
        let rest = expect_mark(close, Mark::Semicolon)?;
        Ok((do_while(alloc, line, body, test)?, rest))
    } else {
        let behind = expect_word(tokens, Word::Until)?;
        let (test, close) = parenthesized(alloc, depth, behind)?;
        let rest = expect_mark(close, Mark::Semicolon)?;
        Ok((do_until(alloc, line, body, test)?, rest))
    }
}

/// How many pairs of brackets the first declarator of a `for` has, if a `:` may come behind it.
fn item_pairs(head: &DeclHead, declarator: &Declarator) -> Option<usize>
    ensures { result ≡ each_pairs head.now (view_declr declarator.now) }
{
    if head.is_static {
        return None;
    }
    match &declarator.tail {
        DeclaratorTail::Brackets(brackets) => empty_pairs(brackets.items()),
        DeclaratorTail::Arguments(_) => None,
    }
}

/// How many pairs of brackets these are, where none has a size.
fn empty_pairs(brackets: &[Bracket]) -> Option<usize>
    ensures { result ≡ some_pairs (brackets_of no_brackets brackets.now) }
{
    for bracket in brackets {
        match bracket {
            Bracket::Empty => {}
            Bracket::Size(_) => return None,
        }
    }
    Some(brackets.len())
}

/// How many pairs of brackets the item of a `for` has, and what stands behind the `:`, where the
/// declarator is one and a `:` comes next.
fn item_colon<'a>(
    head: &DeclHead,
    declarator: &Declarator,
    tokens: &'a [Token],
) -> Option<(usize, &'a [Token])>
    ensures colon { FindsColon (each_pairs head.now (view_declr declarator.now)) tokens.now result }
    ensures fewer { IfSome result (λ x. length x.1.now < length tokens.now) }
{
    let pairs = item_pairs(head, declarator)?;
    let rest = eat_mark(tokens, Mark::Colon)?;
    Some((pairs, rest))
}

/// What begins the parentheses of a `for`, behind the declaration that it begins with.
fn declared_start<'a>(
    alloc: Global,
    depth: u32,
    line: u32,
    head: DeclHead,
    first: Declarator,
    tokens: &'a [Token],
) -> Parsed<'a, ForStart>
    requires { depth ≤ MAX_NESTING }
    ensures reads { ReadsStart (λ h. each_or depth h.item h.stmt line head (view_declr first))
        tokens.now result }
    ensures fewer { IfOk result (λ x. length x.1.now < length tokens.now) }
{
    if let Some((brackets, rest)) = item_colon(&head, &first, tokens) {
        let item = LoopItem {
            head,
            name: first.name,
            brackets,
        };
        Ok((ForStart::Item(item), rest))
    } else {
        let (stmt, rest) = declare_stmt(alloc, depth, line, head, first, tokens)?;
        Ok((ForStart::Stmt(stmt), rest))
    }
}

/// What begins the parentheses of a `for`.
pub fn for_start<'a>(alloc: Global, depth: u32, tokens: &'a [Token]) -> Parsed<'a, ForStart>
    requires { depth ≤ MAX_NESTING }
    ensures reads { ReadsStart (a_for_start depth) tokens.now result }
    ensures fewer { IfOk result (λ x. length x.1.now < length tokens.now) }
{
    if let Some(rest) = eat_mark(tokens, Mark::Semicolon) {
        let line = next_line(tokens);
        return Ok((ForStart::Stmt(node(alloc, line, StmtKind::Empty)?), rest));
    }
    let (first, behind) = operand(alloc, depth, tokens)?;
    match first {
        Operand::Declaration {
            line,
            head,
            declarator,
        } => declared_start(alloc, depth, line, head, declarator, behind),
        Operand::Value { expr, depth: at } => {
            let (stmt, rest) = simple_stmt(alloc, depth, at, expr, behind)?;
            Ok((ForStart::Stmt(stmt), rest))
        }
    }
}

/// The parentheses of a `for` of three parts, behind the first, which stand at `depth`.
pub fn for_rest<'a>(
    alloc: Global,
    depth: u32,
    tokens: &'a [Token],
) -> Result<(Box<Stmt>, Option<Box<Expr>>, &'a [Token]), Fault>
    requires { depth ≤ MAX_NESTING }
    ensures reads { ReadsForRest depth tokens.now result }
    ensures fewer { IfOk result (λ x. length x.2.now < length tokens.now) }
{
    let (test, behind) = expr_stmt(alloc, depth, tokens)?;
    let (step, rest) = optional_expr(alloc, depth, behind, Mark::RightParen)?;
    Ok((test, step, rest))
}
