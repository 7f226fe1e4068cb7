//! Statements without a form that isn't run yet.
ghost use Rattle.std.specs.Prelude.{◌≡◌};
ghost use Rattle.ck_syntax.specs.Tree.{no_declrs, no_stmts};
ghost use Rattle.ck_syntax.specs.View.{view_stmt, declrs_of, stmts_of};
ghost use Rattle.built_forms.specs.Built.{declrs_built, stmt_built, stmts_built};

use crate::exprs::{are_exprs_built, is_declarator_built, is_expr_built, is_option_built};
use ck_syntax::{Declarator, Stmt, StmtKind};

/// Whether each form of these declarators is run.
fn are_declarators_built(all: &[Declarator]) -> bool
    ensures { result ≡ declrs_built (declrs_of no_declrs all.now) }
{
    for declarator in all {
        if !is_declarator_built(declarator) {
            return false;
        }
    }
    true
}

/// Whether each form of a statement is run.
#[cycle(statements)]
#[tactic(auto, using(crate::proofs::Rows::stmt_rows))]
pub(crate) fn is_stmt_built(s: &Stmt) -> bool
    ensures { result ≡ stmt_built (view_stmt s.now) }
{
    match &s.kind {
        StmtKind::Block(all) => are_stmts_built(all.items()),
        StmtKind::Empty | StmtKind::Break | StmtKind::Continue => true,
        StmtKind::Expr(e) => is_expr_built(e),
        StmtKind::Declare { head, declarators } => {
            head.base.is_some() && are_declarators_built(declarators.items())
        }
        StmtKind::Print(items) => are_exprs_built(items.items()),
        StmtKind::If {
            test: e,
            then: body,
        }
        | StmtKind::While { test: e, body }
        | StmtKind::Until { test: e, body }
        | StmtKind::DoWhile { test: e, body }
        | StmtKind::DoUntil { test: e, body }
        | StmtKind::Repeat { count: e, body } => is_expr_built(e) && is_stmt_built(body),
        StmtKind::IfElse {
            test,
            then,
            otherwise,
        } => is_expr_built(test) && is_stmt_built(then) && is_stmt_built(otherwise),
        StmtKind::For {
            start,
            test,
            step,
            body,
        } => {
            is_stmt_built(start)
                && is_stmt_built(test)
                && is_option_built(step)
                && is_stmt_built(body)
        }
        StmtKind::ForEach { .. } => false,
        StmtKind::Return(value) => is_option_built(value),
    }
}

/// Whether each form of these statements is run.
#[cycle(statements)]
pub(crate) fn are_stmts_built(all: &[Stmt]) -> bool
    ensures { result ≡ stmts_built (stmts_of no_stmts all.now) }
{
    for s in all {
        if !is_stmt_built(s) {
            return false;
        }
    }
    true
}
