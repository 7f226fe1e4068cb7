//! Statements.
ghost use Rattle.std.specs.Prelude.{◌≤◌, ◌<◌, suc, length, IfOk};
ghost use Rattle.ck_base.specs.declared.limits.TheConstants.{MAX_NESTING};
ghost use Rattle.ck_parser.specs.Statements.{ReadsStmt, ReadsTested, after_block, after_do};
ghost use Rattle.ck_parser.specs.Statements.{after_for, after_if, after_loop};
ghost use Rattle.parse_exprs.specs.Machine.{a_stmt, stmts as some_stmts};
ghost use Rattle.parse_exprs.specs.Reads.{ReadsPart};
ghost use Rattle.ck_syntax.specs.Tree.{no_stmts};
ghost use Rattle.ck_syntax.specs.View.{stmts_of};

use crate::plain_stmt::{begins_stmt, do_end, for_rest, for_start, parenthesized, plain_stmt};
use crate::stmt_node as node;
use crate::stmt_node::{ForStart, LoopWord};
use ck_base::List;
use ck_lexer::{Mark, Token, Word};
use ck_syntax::{Expr, Stmt};
use parse_exprs::expr::closed_expr;
use parse_exprs::heap::push_boxed;
use parse_exprs::tokens::{deeper, eat_word, expect_mark, first, opening_of};
use parse_exprs::{Fault, Opening, Parsed};
use std::alloc::Global;

/// The statement that comes next.
#[cycle(stmts)]
pub fn stmt<'a>(alloc: Global, depth: u32, tokens: &'a [Token]) -> Parsed<'a, Box<Stmt>>
    requires { depth ≤ MAX_NESTING }
    ensures reads { ReadsStmt (a_stmt depth) tokens.now result }
    ensures fewer { IfOk result (λ x. length x.1.now < length tokens.now) }
{
    let Some((token, behind)) = first(tokens) else {
        return Err(Fault::Syntax(0));
    };
    let line = token.line;
    match opening_of(token) {
        Opening::Block => block(alloc, line, depth, behind),
        Opening::If => if_stmt(alloc, line, depth, behind),
        Opening::While => loop_stmt(alloc, line, LoopWord::While, depth, behind),
        Opening::Until => loop_stmt(alloc, line, LoopWord::Until, depth, behind),
        Opening::Repeat => loop_stmt(alloc, line, LoopWord::Repeat, depth, behind),
        Opening::Do => do_stmt(alloc, line, depth, behind),
        Opening::For => for_stmt(alloc, line, depth, behind),
        _ => plain_stmt(alloc, depth, tokens),
    }
}

/// A statement one deeper than `depth`, which a larger one will hold.
#[cycle(stmts)]
fn inner_stmt<'a>(alloc: Global, depth: u32, tokens: &'a [Token]) -> Parsed<'a, Box<Stmt>>
    requires { depth ≤ MAX_NESTING }
    ensures reads { ReadsStmt (a_stmt (suc depth)) tokens.now result }
    ensures fewer { IfOk result (λ x. length x.1.now < length tokens.now) }
{
    if !begins_stmt(tokens) {
        return Err(Fault::Syntax(tokens.len()));
    }
    let inside = deeper(depth, tokens)?;
    let (whole, rest) = stmt(alloc, inside, tokens)?;
    Ok((whole, rest))
}

/// An expression in parentheses, and the statement behind it.
#[cycle(stmts)]
fn tested<'a>(
    alloc: Global,
    depth: u32,
    tokens: &'a [Token],
) -> Result<(Box<Expr>, Box<Stmt>, &'a [Token]), Fault>
    requires { depth ≤ MAX_NESTING }
    ensures reads { ReadsTested depth tokens.now result }
    ensures fewer { IfOk result (λ x. length x.2.now < length tokens.now) }
{
    let (test, behind) = parenthesized(alloc, depth, tokens)?;
    let (body, rest) = inner_stmt(alloc, depth, behind)?;
    Ok((test, body, rest))
}

/// An `if`, behind its word.
#[cycle(stmts)]
fn if_stmt<'a>(alloc: Global, line: u32, depth: u32, tokens: &'a [Token]) -> Parsed<'a, Box<Stmt>>
    requires { depth ≤ MAX_NESTING }
    ensures reads { ReadsStmt (after_if depth line) tokens.now result }
    ensures fewer { IfOk result (λ x. length x.1.now < length tokens.now) }
{
    let (test, then, rest) = tested(alloc, depth, tokens)?;
    if let Some(behind) = eat_word(rest, Word::Else) {
        let (otherwise, end) = inner_stmt(alloc, depth, behind)?;
        Ok((node::if_else(alloc, line, test, then, otherwise)?, end))
    } else {
        Ok((node::if_then(alloc, line, test, then)?, rest))
    }
}

/// A loop whose test stands before its body, behind its word.
#[cycle(stmts)]
fn loop_stmt<'a>(
    alloc: Global,
    line: u32,
    word: LoopWord,
    depth: u32,
    tokens: &'a [Token],
) -> Parsed<'a, Box<Stmt>>
    requires { depth ≤ MAX_NESTING }
    ensures reads { ReadsStmt (after_loop word depth line) tokens.now result }
    ensures fewer { IfOk result (λ x. length x.1.now < length tokens.now) }
{
    let (test, body, rest) = tested(alloc, depth, tokens)?;
    Ok((node::loop_before(alloc, line, word, test, body)?, rest))
}

/// A `do`, behind its word.
#[cycle(stmts)]
fn do_stmt<'a>(alloc: Global, line: u32, depth: u32, tokens: &'a [Token]) -> Parsed<'a, Box<Stmt>>
    requires { depth ≤ MAX_NESTING }
    ensures reads { ReadsStmt (after_do depth line) tokens.now result }
    ensures fewer { IfOk result (λ x. length x.1.now < length tokens.now) }
{
    let (body, behind) = inner_stmt(alloc, depth, tokens)?;
    do_end(alloc, line, depth, body, behind)
}

/// A `for`, behind its word.
#[cycle(stmts)]
fn for_stmt<'a>(alloc: Global, line: u32, depth: u32, tokens: &'a [Token]) -> Parsed<'a, Box<Stmt>>
    requires { depth ≤ MAX_NESTING }
    ensures reads { ReadsStmt (after_for depth line) tokens.now result }
    ensures fewer { IfOk result (λ x. length x.1.now < length tokens.now) }
{
    let open = expect_mark(tokens, Mark::LeftParen)?;
    let inside = deeper(depth, tokens)?;
    let (start, behind) = for_start(alloc, inside, open)?;
    match start {
        ForStart::Stmt(start) => {
            let (test, step, close) = for_rest(alloc, inside, behind)?;
            let (body, rest) = inner_stmt(alloc, depth, close)?;
            Ok((node::for_do(alloc, line, start, test, step, body)?, rest))
        }
        ForStart::Item(item) => {
            let (array, close) = closed_expr(alloc, inside, behind, Mark::RightParen)?;
            let (body, rest) = inner_stmt(alloc, depth, close)?;
            Ok((node::for_each(alloc, line, item, array, body)?, rest))
        }
    }
}

/// A block, behind its brace.
#[cycle(stmts)]
fn block<'a>(alloc: Global, line: u32, depth: u32, tokens: &'a [Token]) -> Parsed<'a, Box<Stmt>>
    requires { depth ≤ MAX_NESTING }
    ensures reads { ReadsStmt (after_block depth line) tokens.now result }
    ensures fewer { IfOk result (λ x. length x.1.now < length tokens.now) }
{
    let (stmts, close) = inner_stmts(alloc, depth, tokens)?;
    let rest = expect_mark(close, Mark::RightBrace)?;
    Ok((node::block(alloc, line, stmts)?, rest))
}

/// Statements one deeper than `depth`, up to a token that begins none.
#[cycle(stmts)]
fn inner_stmts<'a>(alloc: Global, depth: u32, tokens: &'a [Token]) -> Parsed<'a, List<Stmt>>
    requires { depth ≤ MAX_NESTING }
    ensures reads { ReadsPart (some_stmts (suc depth) no_stmts) (stmts_of no_stmts)
        tokens.now result }
    ensures fewer { IfOk result (λ x. length x.1.now ≤ length tokens.now) }
{
    if begins_stmt(tokens) {
        let inside = deeper(depth, tokens)?;
        stmts(alloc, inside, tokens)
    } else {
        Ok((List::from_vec(Vec::new(alloc)), tokens))
    }
}

/// Statements, up to a token that begins none.
#[cycle(stmts)]
pub fn stmts<'a>(alloc: Global, depth: u32, tokens: &'a [Token]) -> Parsed<'a, List<Stmt>>
    requires { depth ≤ MAX_NESTING }
    ensures reads { ReadsPart (some_stmts depth no_stmts) (stmts_of no_stmts) tokens.now result }
    ensures fewer { IfOk result (λ x. length x.1.now ≤ length tokens.now) }
{
    let mut all = Vec::new(alloc);
    let mut rest = tokens;
    while begins_stmt(rest) {
        let (next, behind) = stmt(alloc, depth, rest)?;
        push_boxed(&mut all, next)?;
        rest = behind;
    }
    Ok((List::from_vec(all), rest))
}
