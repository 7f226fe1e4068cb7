//! What statements become: their parts come first, in text order, and then the statement itself.
ghost use Rattle.std.specs.Prelude.{◌+◌, ◌^◌, ◌<◌, ◌≤◌, length};
ghost use Rattle.ck_syntax.specs.Size.{expr_size, option_size, stmt_size, stmts_size};
ghost use Rattle.ck_syntax.specs.Tree.{no_stmts};
ghost use Rattle.ck_syntax.specs.View.{view_expr, view_option, view_stmt, stmts_of};
ghost use Rattle.check_decls.specs.StatementTyping as typing;
ghost use Rattle.check_decls.specs.Outcomes.{IsStated, AreStated, IsRefused};

use crate::heads::{
    condition, do_made, for_made, for_step, for_test, if_made, repeat_made, while_made,
};
use crate::items::{each_made, item_kind, local_item, widens};
use crate::jumps::{jump, return_meaning};
use crate::print::print;
use crate::simple::{block_of, declared, dropped, nothing, push_statement};
use check_exprs::{Scope, expr};
use check_scope::boxed;
use ck_base::List;
use ck_syntax::{Expr, LoopItem, Stmt, StmtKind};
use ck_typed::TypedStmt;
use program_laws::Surroundings;
use std::alloc::Global;
use type_table::{Table, TypeFault};

/// A statement.
#[cycle(statements)]
pub(crate) fn statement(
    alloc: Global,
    table: &Table,
    around: Surroundings,
    scope: &mut Scope,
    s: &Stmt,
) -> Result<Box<TypedStmt>, TypeFault>
    requires room { length scope.old.locals + stmt_size (view_stmt s.now) < 2 ^ 32 }
    ensures stated { IsStated result scope.new
        (typing.statement table.now around scope.old s.now) }
    ensures refused { IsRefused result (typing.statement table.now around scope.old s.now) }
    ensures grown { length scope.new.locals ≤ length scope.old.locals
        + stmt_size (view_stmt s.now) }
{
    let line = s.line;
    match &s.kind {
        StmtKind::Block(stmts) => block(alloc, table, around, scope, stmts.items()),
        StmtKind::Empty => nothing(alloc),
        StmtKind::Expr(expr) => dropped(alloc, table, scope, line, expr),
        StmtKind::Declare { head, declarators } => {
            declared(alloc, table, scope, line, head, declarators.items())
        }
        StmtKind::Print(items) => print(alloc, table, scope, line, items.items()),
        StmtKind::If { test, then } => if_then(alloc, table, around, scope, line, then, test),
        StmtKind::IfElse {
            test,
            then,
            otherwise,
        } => if_else(alloc, table, around, scope, line, then, otherwise, test),
        StmtKind::While { test, body } => {
            while_do(alloc, table, around, scope, line, false, body, test)
        }
        StmtKind::Until { test, body } => {
            while_do(alloc, table, around, scope, line, true, body, test)
        }
        StmtKind::DoWhile { body, test } => {
            do_while(alloc, table, around, scope, line, false, body, test)
        }
        StmtKind::DoUntil { body, test } => {
            do_while(alloc, table, around, scope, line, true, body, test)
        }
        StmtKind::For {
            start,
            test,
            step,
            body,
        } => for_do(alloc, table, around, scope, line, start, test, body, step),
        StmtKind::ForEach { item, array, body } => {
            for_each(alloc, table, around, scope, line, item, body, array)
        }
        StmtKind::Repeat { count, body } => repeat(alloc, table, around, scope, line, body, count),
        StmtKind::Break => {
            let place = scope.place(line);
            jump(alloc, around, scope, line, TypedStmt::Break { place })
        }
        StmtKind::Continue => {
            let place = scope.place(line);
            jump(alloc, around, scope, line, TypedStmt::Continue { place })
        }
        StmtKind::Return(value) => return_meaning(alloc, table, around, scope, line, value),
    }
}

/// Statements in order.
#[cycle(statements)]
pub(crate) fn statements(
    alloc: Global,
    table: &Table,
    around: Surroundings,
    scope: &mut Scope,
    all: &[Stmt],
) -> Result<List<TypedStmt>, TypeFault>
    requires room { length scope.old.locals + stmts_size (stmts_of no_stmts all.now) < 2 ^ 32 }
    ensures stated { AreStated result scope.new
        (typing.statements table.now around scope.old all.now) }
    ensures refused { IsRefused result (typing.statements table.now around scope.old all.now) }
    ensures grown { length scope.new.locals ≤ length scope.old.locals
        + stmts_size (stmts_of no_stmts all.now) }
{
    let mut statements = Vec::new(alloc);
    for s in all {
        let statement = statement(alloc, table, around, scope, s)?;
        push_statement(&mut statements, statement)?;
    }
    Ok(List::from_vec(statements))
}

/// `{ .. }`: its names are forgotten behind it.
#[cycle(statements)]
fn block(
    alloc: Global,
    table: &Table,
    around: Surroundings,
    scope: &mut Scope,
    all: &[Stmt],
) -> Result<Box<TypedStmt>, TypeFault>
    requires room { length scope.old.locals + stmts_size (stmts_of no_stmts all.now) < 2 ^ 32 }
    ensures stated { IsStated result scope.new
        (typing.block table.now around scope.old all.now) }
    ensures refused { IsRefused result (typing.block table.now around scope.old all.now) }
    ensures grown { length scope.new.locals ≤ length scope.old.locals
        + stmts_size (stmts_of no_stmts all.now) }
{
    scope.enter(alloc)?;
    let all = statements(alloc, table, around, scope, all)?;
    scope.leave();
    boxed(alloc, block_of(all))
}

/// A statement in a block of its own, as the bodies of `if` and of loops are: its names are
/// forgotten behind it.
#[cycle(statements)]
fn in_block(
    alloc: Global,
    table: &Table,
    around: Surroundings,
    scope: &mut Scope,
    body: &Stmt,
) -> Result<Box<TypedStmt>, TypeFault>
    requires room { length scope.old.locals + stmt_size (view_stmt body.now) < 2 ^ 32 }
    ensures stated { IsStated result scope.new
        (typing.in_block table.now around scope.old body.now) }
    ensures refused { IsRefused result (typing.in_block table.now around scope.old body.now) }
    ensures grown { length scope.new.locals ≤ length scope.old.locals
        + stmt_size (view_stmt body.now) }
{
    scope.enter(alloc)?;
    let body = statement(alloc, table, around, scope, body)?;
    scope.leave();
    Ok(body)
}

/// `if (test) then`
#[cycle(statements)]
fn if_then(
    alloc: Global,
    table: &Table,
    around: Surroundings,
    scope: &mut Scope,
    line: u32,
    then: &Stmt,
    test: &Expr,
) -> Result<Box<TypedStmt>, TypeFault>
    requires room { length scope.old.locals + expr_size (view_expr test.now)
        + stmt_size (view_stmt then.now) < 2 ^ 32 }
    ensures stated { IsStated result scope.new
        (typing.if_then table.now around scope.old line test.now then.now) }
    ensures refused { IsRefused result
        (typing.if_then table.now around scope.old line test.now then.now) }
    ensures grown { length scope.new.locals ≤ length scope.old.locals
        + expr_size (view_expr test.now) + stmt_size (view_stmt then.now) }
{
    let test = condition(alloc, table, scope, line, test)?;
    let then = in_block(alloc, table, around, scope, then)?;
    let otherwise = nothing(alloc)?;
    if_made(alloc, test.expr, then, otherwise, scope.place(line))
}

/// `if (test) then else otherwise`
#[cycle(statements)]
fn if_else(
    alloc: Global,
    table: &Table,
    around: Surroundings,
    scope: &mut Scope,
    line: u32,
    then: &Stmt,
    otherwise: &Stmt,
    test: &Expr,
) -> Result<Box<TypedStmt>, TypeFault>
    requires room { length scope.old.locals + expr_size (view_expr test.now)
        + stmt_size (view_stmt then.now) + stmt_size (view_stmt otherwise.now) < 2 ^ 32 }
    ensures stated { IsStated result scope.new
        (typing.if_else table.now around scope.old line test.now then.now otherwise.now) }
    ensures refused { IsRefused result
        (typing.if_else table.now around scope.old line test.now then.now otherwise.now) }
    ensures grown { length scope.new.locals ≤ length scope.old.locals
        + expr_size (view_expr test.now) + stmt_size (view_stmt then.now)
        + stmt_size (view_stmt otherwise.now) }
{
    let test = condition(alloc, table, scope, line, test)?;
    let then = in_block(alloc, table, around, scope, then)?;
    let otherwise = in_block(alloc, table, around, scope, otherwise)?;
    if_made(alloc, test.expr, then, otherwise, scope.place(line))
}

/// `while (test) body`, or `until (test) body`
#[cycle(statements)]
fn while_do(
    alloc: Global,
    table: &Table,
    around: Surroundings,
    scope: &mut Scope,
    line: u32,
    until: bool,
    body: &Stmt,
    test: &Expr,
) -> Result<Box<TypedStmt>, TypeFault>
    requires room { length scope.old.locals + expr_size (view_expr test.now)
        + stmt_size (view_stmt body.now) < 2 ^ 32 }
    ensures stated { IsStated result scope.new
        (typing.while_do table.now around scope.old line until test.now body.now) }
    ensures refused { IsRefused result
        (typing.while_do table.now around scope.old line until test.now body.now) }
    ensures grown { length scope.new.locals ≤ length scope.old.locals
        + expr_size (view_expr test.now) + stmt_size (view_stmt body.now) }
{
    let test = condition(alloc, table, scope, line, test)?;
    let body = in_block(alloc, table, around.looped(), scope, body)?;
    while_made(alloc, until, test.expr, body, scope.place(line))
}

/// `do body while (test);`, or `do body until (test);`
#[cycle(statements)]
fn do_while(
    alloc: Global,
    table: &Table,
    around: Surroundings,
    scope: &mut Scope,
    line: u32,
    until: bool,
    body: &Stmt,
    test: &Expr,
) -> Result<Box<TypedStmt>, TypeFault>
    requires room { length scope.old.locals + stmt_size (view_stmt body.now)
        + expr_size (view_expr test.now) < 2 ^ 32 }
    ensures stated { IsStated result scope.new
        (typing.do_while table.now around scope.old line until body.now test.now) }
    ensures refused { IsRefused result
        (typing.do_while table.now around scope.old line until body.now test.now) }
    ensures grown { length scope.new.locals ≤ length scope.old.locals
        + stmt_size (view_stmt body.now) + expr_size (view_expr test.now) }
{
    let body = in_block(alloc, table, around.looped(), scope, body)?;
    let test = condition(alloc, table, scope, line, test)?;
    do_made(alloc, until, body, test.expr, scope.place(line))
}

/// `for (start; test; step) body`: a block with its head.
#[cycle(statements)]
fn for_do(
    alloc: Global,
    table: &Table,
    around: Surroundings,
    scope: &mut Scope,
    line: u32,
    start: &Stmt,
    test: &Stmt,
    body: &Stmt,
    step: &Option<Box<Expr>>,
) -> Result<Box<TypedStmt>, TypeFault>
    requires room { length scope.old.locals + stmt_size (view_stmt start.now)
        + stmt_size (view_stmt test.now) + option_size (view_option step.now)
        + stmt_size (view_stmt body.now) < 2 ^ 32 }
    ensures stated { IsStated result scope.new
        (typing.for_do table.now around scope.old line start.now test.now step.now body.now) }
    ensures refused { IsRefused result
        (typing.for_do table.now around scope.old line start.now test.now step.now body.now) }
    ensures grown { length scope.new.locals ≤ length scope.old.locals
        + stmt_size (view_stmt start.now) + stmt_size (view_stmt test.now)
        + option_size (view_option step.now) + stmt_size (view_stmt body.now) }
{
    scope.enter(alloc)?;
    let start = statement(alloc, table, around, scope, start)?;
    let test = for_test(alloc, table, scope, line, test)?;
    let step = for_step(alloc, table, scope, step)?;
    let body = in_block(alloc, table, around.looped(), scope, body)?;
    scope.leave();
    for_made(alloc, test, start, step, body, scope.place(line))
}

/// `for (item : array) body`: a block with its head, in which the array comes first.
#[cycle(statements)]
fn for_each(
    alloc: Global,
    table: &Table,
    around: Surroundings,
    scope: &mut Scope,
    line: u32,
    item: &LoopItem,
    body: &Stmt,
    array: &Expr,
) -> Result<Box<TypedStmt>, TypeFault>
    requires room { length scope.old.locals + expr_size (view_expr array.now)
        + stmt_size (view_stmt body.now) + 1 < 2 ^ 32 }
    ensures stated { IsStated result scope.new
        (typing.for_each table.now around scope.old line item.now array.now body.now) }
    ensures refused { IsRefused result
        (typing.for_each table.now around scope.old line item.now array.now body.now) }
    ensures grown { length scope.new.locals ≤ length scope.old.locals
        + expr_size (view_expr array.now) + stmt_size (view_stmt body.now) + 1 }
{
    scope.enter(alloc)?;
    let array = expr(alloc, table, scope, array)?;
    let kind = local_item(table, scope, line, item, item_kind(array.kind))?;
    let widens = widens(array.kind, kind);
    let local = scope.declare(alloc, &item.name, kind, line)?;
    let body = in_block(alloc, table, around.looped(), scope, body)?;
    scope.leave();
    each_made(alloc, array.expr, local, widens, body, scope.place(line))
}

/// `repeat (count) body`
#[cycle(statements)]
fn repeat(
    alloc: Global,
    table: &Table,
    around: Surroundings,
    scope: &mut Scope,
    line: u32,
    body: &Stmt,
    count: &Expr,
) -> Result<Box<TypedStmt>, TypeFault>
    requires room { length scope.old.locals + expr_size (view_expr count.now)
        + stmt_size (view_stmt body.now) < 2 ^ 32 }
    ensures stated { IsStated result scope.new
        (typing.repeat table.now around scope.old line count.now body.now) }
    ensures refused { IsRefused result
        (typing.repeat table.now around scope.old line count.now body.now) }
    ensures grown { length scope.new.locals ≤ length scope.old.locals
        + expr_size (view_expr count.now) + stmt_size (view_stmt body.now) }
{
    let count = condition(alloc, table, scope, line, count)?;
    let body = in_block(alloc, table, around.looped(), scope, body)?;
    repeat_made(alloc, count.expr, body, scope.place(line))
}
