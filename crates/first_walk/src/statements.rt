//! The declarations of statements, as far as they stand in no block.
ghost use Rattle.std.specs.Prelude.{◌≡◌, ◌+◌, ◌<◌, ◌≤◌, ◌^◌, OnOk, IfErr};
ghost use Rattle.ck_base.specs.declared.limits.TheConstants.{MAX_FILE_TOKENS};
ghost use Rattle.ck_syntax.specs.Size.{declr_size, declrs_size, option_size, stmt_size};
ghost use Rattle.ck_syntax.specs.Tree.{no_declrs};
ghost use Rattle.ck_syntax.specs.View.{view_declr, declrs_of, view_option, view_stmt};
ghost use Rattle.type_table.specs.Answer.{gives, fault, IsFault};
ghost use Rattle.first_walk.specs.Room.{entries, declared_by};
ghost use Rattle.first_walk.specs.Steps.{declr_entered};
ghost use Rattle.first_walk.specs.FirstWalk.{enter_declrs as declrs_entered, enter_option as option_entered, enter_stmt as stmt_entered};

use crate::declarations::enter_declared;
use crate::expressions::{enter_behind, enter_expr, enter_exprs};
use ck_syntax::{DeclHead, Declarator, Expr, Stmt, StmtKind};
use std::alloc::Global;
use type_table::{Table, TypeFault};

/// One of several declarations with one head.
fn enter_declarator(
    alloc: Global,
    table: &mut Table,
    file: u32,
    line: u32,
    owner: Option<u32>,
    head: &DeclHead,
    declarator: &Declarator,
) -> Result<(), TypeFault>
    requires room { entries table.old + declr_size (view_declr declarator.now) < 2 ^ 32 }
    requires own { declared_by owner table.old
        + declr_size (view_declr declarator.now) ≤ MAX_FILE_TOKENS }
    ensures entered { OnOk result
        (declr_entered file line owner head.now table.old (view_declr declarator.now)
        ≡ gives table.new) }
    ensures refused { IfErr result
        (λ why. IsFault why →
        declr_entered file line owner head.now table.old (view_declr declarator.now)
        ≡ fault why) }
{
    enter_behind(alloc, table, file, owner, declarator)?;
    enter_declared(alloc, table, file, line, owner, head, declarator)
}

/// Several declarations with one head.
fn enter_declarators(
    alloc: Global,
    table: &mut Table,
    file: u32,
    line: u32,
    owner: Option<u32>,
    head: &DeclHead,
    declarators: &[Declarator],
) -> Result<(), TypeFault>
    requires room { entries table.old + declrs_size (declrs_of no_declrs declarators.now) < 2 ^ 32 }
    requires own { declared_by owner table.old
        + declrs_size (declrs_of no_declrs declarators.now) ≤ MAX_FILE_TOKENS }
    ensures entered { OnOk result
        (declrs_entered file line owner head.now table.old (declrs_of no_declrs declarators.now)
        ≡ gives table.new) }
    ensures refused { IfErr result
        (λ why. IsFault why →
        declrs_entered file line owner head.now table.old
        (declrs_of no_declrs declarators.now) ≡ fault why) }
{
    for declarator in declarators {
        enter_declarator(alloc, table, file, line, owner, head, declarator)?;
    }
    Ok(())
}

/// Those of an expression that may be missing.
fn enter_option(
    alloc: Global,
    table: &mut Table,
    file: u32,
    owner: Option<u32>,
    e: &Option<Box<Expr>>,
) -> Result<(), TypeFault>
    requires room { entries table.old + option_size (view_option e.now) < 2 ^ 32 }
    requires own { declared_by owner table.old + option_size (view_option e.now) ≤ MAX_FILE_TOKENS }
    ensures entered { OnOk result
        (option_entered file owner table.old (view_option e.now) ≡ gives table.new) }
    ensures refused { IfErr result
        (λ why. IsFault why →
        option_entered file owner table.old (view_option e.now) ≡ fault why) }
{
    match e {
        Some(e) => enter_expr(alloc, table, file, owner, e),
        None => Ok(()),
    }
}

/// Those of a statement that stand in no block. The bodies of `if` and of loops are blocks,
/// and each `for` is one with its head.
pub(crate) fn enter_stmt(
    alloc: Global,
    table: &mut Table,
    file: u32,
    owner: Option<u32>,
    s: &Stmt,
) -> Result<(), TypeFault>
    requires room { entries table.old + stmt_size (view_stmt s.now) < 2 ^ 32 }
    requires own { declared_by owner table.old + stmt_size (view_stmt s.now) ≤ MAX_FILE_TOKENS }
    ensures entered { OnOk result
        (stmt_entered file owner table.old (view_stmt s.now) ≡ gives table.new) }
    ensures refused { IfErr result
        (λ why. IsFault why → stmt_entered file owner table.old (view_stmt s.now) ≡ fault why) }
{
    match &s.kind {
        StmtKind::Expr(e)
        | StmtKind::If { test: e, .. }
        | StmtKind::IfElse { test: e, .. }
        | StmtKind::While { test: e, .. }
        | StmtKind::Until { test: e, .. }
        | StmtKind::DoWhile { test: e, .. }
        | StmtKind::DoUntil { test: e, .. }
        | StmtKind::Repeat { count: e, .. } => enter_expr(alloc, table, file, owner, e),
        StmtKind::Declare { head, declarators } => {
            enter_declarators(alloc, table, file, s.line, owner, head, declarators.items())
        }
        StmtKind::Print(items) => enter_exprs(alloc, table, file, owner, items.items()),
        StmtKind::Return(value) => enter_option(alloc, table, file, owner, value),
        StmtKind::Block(_)
        | StmtKind::Empty
        | StmtKind::For { .. }
        | StmtKind::ForEach { .. }
        | StmtKind::Break
        | StmtKind::Continue => Ok(()),
    }
}
