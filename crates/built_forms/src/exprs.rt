//! Expressions without a form that isn't run yet.
ghost use Rattle.std.specs.Prelude.{◌≡◌, ◌&&◌, is_some};
ghost use Rattle.ck_syntax.specs.Tree.{no_brackets, no_exprs};
ghost use Rattle.ck_syntax.specs.View.{view_expr, view_declr, view_option, with_bracket, exprs_of, brackets_of};
ghost use Rattle.built_forms.specs.Built.{expr_built, exprs_built, bracket_built, brackets_built, declr_built, option_built};

use ck_syntax::{Bracket, Declarator, DeclaratorTail, Expr, ExprKind};

/// Whether each form of an expression is run.
#[cycle(expressions)]
#[tactic(auto, using(crate::proofs::Rows::expr_rows))]
pub(crate) fn is_expr_built(e: &Expr) -> bool
    ensures { result ≡ expr_built (view_expr e.now) }
{
    match &e.kind {
        ExprKind::Int(_)
        | ExprKind::Float(_)
        | ExprKind::Text(_)
        | ExprKind::Name(_)
        | ExprKind::Constant(_)
        | ExprKind::Unit(_) => true,
        ExprKind::Paren(e)
        | ExprKind::Member { object: e, .. }
        | ExprKind::Postfix { operand: e, .. }
        | ExprKind::Prefix { operand: e, .. }
        | ExprKind::Spork(e)
        | ExprKind::Cast { value: e, .. } => is_expr_built(e),
        ExprKind::Index {
            array: left,
            index: right,
        }
        | ExprKind::Dur {
            count: left,
            unit: right,
        }
        | ExprKind::Binary { left, right, .. }
        | ExprKind::Chuck { left, right, .. } => is_expr_built(left) && is_expr_built(right),
        ExprKind::Cond {
            test,
            then,
            otherwise,
        } => is_expr_built(test) && is_expr_built(then) && is_expr_built(otherwise),
        ExprKind::Array(items) => are_exprs_built(items.items()),
        ExprKind::New { sizes, .. } => are_exprs_built(sizes.items()),
        ExprKind::NewWith { .. } => false,
        ExprKind::Call { callee, arguments } => {
            is_expr_built(callee) && are_exprs_built(arguments.items())
        }
        ExprKind::Declare { head, declarator } => {
            head.base.is_some() && is_declarator_built(declarator)
        }
    }
}

/// Whether each form of these expressions is run.
#[cycle(expressions)]
pub(crate) fn are_exprs_built(all: &[Expr]) -> bool
    ensures { result ≡ exprs_built (exprs_of no_exprs all.now) }
{
    for e in all {
        if !is_expr_built(e) {
            return false;
        }
    }
    true
}

/// Whether each form of a declarator is run.
#[cycle(expressions)]
#[tactic(auto, using(crate::proofs::Rows::expr_rows))]
pub(crate) fn is_declarator_built(declarator: &Declarator) -> bool
    ensures { result ≡ declr_built (view_declr declarator.now) }
{
    match &declarator.tail {
        DeclaratorTail::Brackets(brackets) => are_brackets_built(brackets.items()),
        DeclaratorTail::Arguments(_) => false,
    }
}

/// Whether each form of a pair of brackets is run.
#[cycle(expressions)]
fn is_bracket_built(bracket: &Bracket) -> bool
    ensures { result ≡ bracket_built bracket.now }
{
    match bracket {
        Bracket::Empty => true,
        Bracket::Size(e) => is_expr_built(e),
    }
}

/// Whether each form of these pairs of brackets is run.
#[cycle(expressions)]
fn are_brackets_built(all: &[Bracket]) -> bool
    ensures { result ≡ brackets_built (brackets_of no_brackets all.now) }
{
    for bracket in all {
        if !is_bracket_built(bracket) {
            return false;
        }
    }
    true
}

/// Whether each form of an expression is run that may be missing.
pub(crate) fn is_option_built(e: &Option<Box<Expr>>) -> bool
    ensures { result ≡ option_built (view_option e.now) }
{
    match e {
        Some(e) => is_expr_built(e),
        None => true,
    }
}
