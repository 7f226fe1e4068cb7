//! The declarations of expressions and statements that stand in no block.
ghost use Rattle.std.specs.Prelude.{◌≡◌, ◌+◌, ◌<◌, ◌≤◌, ◌^◌, OnOk, IfErr};
ghost use Rattle.ck_base.specs.declared.limits.TheConstants.{MAX_FILE_TOKENS};
ghost use Rattle.ck_syntax.specs.Size.{expr_size, exprs_size, brackets_size, declr_size};
ghost use Rattle.ck_syntax.specs.Tree.{no_brackets, no_exprs};
ghost use Rattle.ck_syntax.specs.View.{view_expr, view_declr, exprs_of, with_bracket, brackets_of};
ghost use Rattle.type_table.specs.Answer.{gives, fault, and_then, IsFault};
ghost use Rattle.first_walk.specs.Room.{entries, declared_by};
ghost use Rattle.first_walk.specs.Steps.{bracket_entered};
ghost use Rattle.first_walk.specs.FirstWalk.{enter_expr as expr_entered, enter_exprs as exprs_entered, enter_brackets as brackets_entered, enter_behind as behind_entered, enter_declared as declared_entered};

use crate::declarations::enter_declared;
use ck_syntax::{Bracket, DeclHead, Declarator, DeclaratorTail, Expr, ExprKind};
use std::alloc::Global;
use type_table::{Table, TypeFault};

/// All declarations of an expression in their order: operands first, from left to right.
#[cycle(expressions)]
pub(crate) fn enter_expr(
    alloc: Global,
    table: &mut Table,
    file: u32,
    owner: Option<u32>,
    e: &Expr,
) -> Result<(), TypeFault>
    requires room { entries table.old + expr_size (view_expr e.now) < 2 ^ 32 }
    requires own { declared_by owner table.old + expr_size (view_expr e.now) ≤ MAX_FILE_TOKENS }
    ensures entered { OnOk result
        (expr_entered file owner table.old (view_expr e.now) ≡ gives table.new) }
    ensures refused { IfErr result
        (λ why. IsFault why → expr_entered file owner table.old (view_expr e.now) ≡ fault why) }
{
    match &e.kind {
        ExprKind::Int(_)
        | ExprKind::Float(_)
        | ExprKind::Text(_)
        | ExprKind::Name(_)
        | ExprKind::Constant(_)
        | ExprKind::Unit(_) => Ok(()),
        ExprKind::Paren(e)
        | ExprKind::Member { object: e, .. }
        | ExprKind::Postfix { operand: e, .. }
        | ExprKind::Prefix { operand: e, .. }
        | ExprKind::Spork(e)
        | ExprKind::Cast { value: e, .. } => enter_expr(alloc, table, file, owner, e),
        ExprKind::Index { array, index } => enter_both(alloc, table, file, owner, array, index),
        ExprKind::Dur { count, unit } => enter_both(alloc, table, file, owner, count, unit),
        ExprKind::Binary { left, right, .. } | ExprKind::Chuck { left, right, .. } => {
            enter_both(alloc, table, file, owner, left, right)
        }
        ExprKind::Cond {
            test,
            then,
            otherwise,
        } => {
            enter_expr(alloc, table, file, owner, test)?;
            enter_both(alloc, table, file, owner, then, otherwise)
        }
        ExprKind::Array(items) => enter_exprs(alloc, table, file, owner, items.items()),
        ExprKind::New { sizes, .. } => enter_exprs(alloc, table, file, owner, sizes.items()),
        ExprKind::NewWith { arguments, .. } => {
            enter_exprs(alloc, table, file, owner, arguments.items())
        }
        ExprKind::Call { callee, arguments } => {
            enter_call(alloc, table, file, owner, arguments.items(), callee)
        }
        ExprKind::Declare { head, declarator } => {
            enter_declaration(alloc, table, file, e.line, owner, head, declarator)
        }
    }
}

/// Those of two expressions, one after the other.
#[cycle(expressions)]
fn enter_both(
    alloc: Global,
    table: &mut Table,
    file: u32,
    owner: Option<u32>,
    first: &Expr,
    second: &Expr,
) -> Result<(), TypeFault>
    requires room { entries table.old + expr_size (view_expr first.now)
        + expr_size (view_expr second.now) < 2 ^ 32 }
    requires own { declared_by owner table.old + expr_size (view_expr first.now)
        + expr_size (view_expr second.now) ≤ MAX_FILE_TOKENS }
    ensures entered { OnOk result
        (and_then (expr_entered file owner table.old (view_expr first.now))
        (λ after. expr_entered file owner after (view_expr second.now)) ≡ gives table.new) }
    ensures refused { IfErr result
        (λ why. IsFault why →
        and_then (expr_entered file owner table.old (view_expr first.now))
        (λ after. expr_entered file owner after (view_expr second.now)) ≡ fault why) }
{
    enter_expr(alloc, table, file, owner, first)?;
    enter_expr(alloc, table, file, owner, second)
}

/// Those of a call: its callee's, and then its arguments'.
#[cycle(expressions)]
fn enter_call(
    alloc: Global,
    table: &mut Table,
    file: u32,
    owner: Option<u32>,
    arguments: &[Expr],
    callee: &Expr,
) -> Result<(), TypeFault>
    requires room { entries table.old + expr_size (view_expr callee.now)
        + exprs_size (exprs_of no_exprs arguments.now) < 2 ^ 32 }
    requires own { declared_by owner table.old + expr_size (view_expr callee.now)
        + exprs_size (exprs_of no_exprs arguments.now) ≤ MAX_FILE_TOKENS }
    ensures entered { OnOk result
        (and_then (expr_entered file owner table.old (view_expr callee.now))
        (λ after. exprs_entered file owner after (exprs_of no_exprs arguments.now))
        ≡ gives table.new) }
    ensures refused { IfErr result
        (λ why. IsFault why →
        and_then (expr_entered file owner table.old (view_expr callee.now))
        (λ after. exprs_entered file owner after (exprs_of no_exprs arguments.now))
        ≡ fault why) }
{
    enter_expr(alloc, table, file, owner, callee)?;
    enter_exprs(alloc, table, file, owner, arguments)
}

/// Those behind a declared name: of its brackets, or of its arguments.
#[cycle(expressions)]
pub(crate) fn enter_behind(
    alloc: Global,
    table: &mut Table,
    file: u32,
    owner: Option<u32>,
    declarator: &Declarator,
) -> Result<(), TypeFault>
    requires room { entries table.old + declr_size (view_declr declarator.now) < 2 ^ 32 }
    requires own { declared_by owner table.old
        + declr_size (view_declr declarator.now) ≤ MAX_FILE_TOKENS }
    ensures entered { OnOk result
        (behind_entered file owner table.old (view_declr declarator.now) ≡ gives table.new) }
    ensures refused { IfErr result
        (λ why. IsFault why →
        behind_entered file owner table.old (view_declr declarator.now) ≡ fault why) }
{
    match &declarator.tail {
        DeclaratorTail::Brackets(brackets) => {
            enter_brackets(alloc, table, file, owner, brackets.items())
        }
        DeclaratorTail::Arguments(arguments) => {
            enter_exprs(alloc, table, file, owner, arguments.items())
        }
    }
}

/// A declaration: those behind its name, and then its own name.
#[cycle(expressions)]
fn enter_declaration(
    alloc: Global,
    table: &mut Table,
    file: u32,
    line: u32,
    owner: Option<u32>,
    head: &DeclHead,
    declarator: &Declarator,
) -> Result<(), TypeFault>
    requires room { entries table.old + declr_size (view_declr declarator.now) < 2 ^ 32 }
    requires own { declared_by owner table.old
        + declr_size (view_declr declarator.now) ≤ MAX_FILE_TOKENS }
    ensures entered { OnOk result
        (and_then (behind_entered file owner table.old (view_declr declarator.now))
        (λ after. declared_entered after file line owner head.now (view_declr declarator.now))
        ≡ gives table.new) }
    ensures refused { IfErr result
        (λ why. IsFault why →
        and_then (behind_entered file owner table.old (view_declr declarator.now))
        (λ after. declared_entered after file line owner head.now (view_declr declarator.now))
        ≡ fault why) }
{
    enter_behind(alloc, table, file, owner, declarator)?;
    enter_declared(alloc, table, file, line, owner, head, declarator)
}

/// Those of expressions, one after another.
#[cycle(expressions)]
pub(crate) fn enter_exprs(
    alloc: Global,
    table: &mut Table,
    file: u32,
    owner: Option<u32>,
    all: &[Expr],
) -> Result<(), TypeFault>
    requires room { entries table.old + exprs_size (exprs_of no_exprs all.now) < 2 ^ 32 }
    requires own { declared_by owner table.old
        + exprs_size (exprs_of no_exprs all.now) ≤ MAX_FILE_TOKENS }
    ensures entered { OnOk result
        (exprs_entered file owner table.old (exprs_of no_exprs all.now) ≡ gives table.new) }
    ensures refused { IfErr result
        (λ why. IsFault why →
        exprs_entered file owner table.old (exprs_of no_exprs all.now) ≡ fault why) }
{
    for e in all {
        enter_expr(alloc, table, file, owner, e)?;
    }
    Ok(())
}

/// Those of one pair of brackets.
#[cycle(expressions)]
fn enter_bracket(
    alloc: Global,
    table: &mut Table,
    file: u32,
    owner: Option<u32>,
    bracket: &Bracket,
) -> Result<(), TypeFault>
    requires room { entries table.old
        + brackets_size (with_bracket no_brackets bracket.now) < 2 ^ 32 }
    requires own { declared_by owner table.old
        + brackets_size (with_bracket no_brackets bracket.now) ≤ MAX_FILE_TOKENS }
    ensures entered { OnOk result
        (bracket_entered file owner table.old bracket.now ≡ gives table.new) }
    ensures refused { IfErr result
        (λ why. IsFault why → bracket_entered file owner table.old bracket.now ≡ fault why) }
{
    match bracket {
        Bracket::Empty => Ok(()),
        Bracket::Size(e) => enter_expr(alloc, table, file, owner, e),
    }
}

/// Those of pairs of brackets, one after another.
#[cycle(expressions)]
pub(crate) fn enter_brackets(
    alloc: Global,
    table: &mut Table,
    file: u32,
    owner: Option<u32>,
    all: &[Bracket],
) -> Result<(), TypeFault>
    requires room { entries table.old + brackets_size (brackets_of no_brackets all.now) < 2 ^ 32 }
    requires own { declared_by owner table.old
        + brackets_size (brackets_of no_brackets all.now) ≤ MAX_FILE_TOKENS }
    ensures entered { OnOk result
        (brackets_entered file owner table.old (brackets_of no_brackets all.now)
        ≡ gives table.new) }
    ensures refused { IfErr result
        (λ why. IsFault why →
        brackets_entered file owner table.old (brackets_of no_brackets all.now)
        ≡ fault why) }
{
    for bracket in all {
        enter_bracket(alloc, table, file, owner, bracket)?;
    }
    Ok(())
}
