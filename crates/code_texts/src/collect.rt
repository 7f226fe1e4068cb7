//! The strings of trees, in the order of their first uses in the code.
ghost use Rattle.std.specs.Prelude.{◌≡◌, [], IfOk, OnOk, map};
ghost use Rattle.ck_typed.specs.View.{view_expr, exprs_of, view_stmt, stmts_of, view_fun};
ghost use Rattle.ck_scheme.specs.Texts.{expr_texts, exprs_texts, stmt_texts, stmts_texts, default_texts, funs_texts, once_each};

use crate::texts::Texts;
use ck_typed::{TypedExpr, TypedFun, TypedStmt};
use ck_values::{Elem, Kind};
use fixed_point::Memory;
use std::alloc::Global;

// Enters the strings of an expression that are not entered yet, in the order of its code.
#[cycle(expr_strings)]
#[tactic(auto, using(crate::proofs::Trees::expr_walks))]
fn collect_expr(texts: &mut Texts, alloc: Global, e: &TypedExpr) -> Result<(), Memory>
    ensures { OnOk result (texts.new ≡ once_each texts.old (expr_texts (view_expr e.now))) }
{
    match e {
        TypedExpr::Leaf(..) | TypedExpr::New { .. } => Ok(()),
        TypedExpr::Text { value, .. } => texts.add(alloc, value.bytes()),
        TypedExpr::Unary { operand: a, .. }
        | TypedExpr::NewObjects { size: a, .. }
        | TypedExpr::Construct { object: a, .. } => collect_expr(texts, alloc, a),
        TypedExpr::Binary { left, right, .. }
        | TypedExpr::And { left, right, .. }
        | TypedExpr::Or { left, right, .. } => {
            collect_expr(texts, alloc, left)?;
            collect_expr(texts, alloc, right)
        }
        TypedExpr::Variadic { operands: all, .. }
        | TypedExpr::Prefix { address: all, .. }
        | TypedExpr::Postfix { address: all, .. } => collect_all(texts, alloc, all.items()),
        TypedExpr::Choice {
            test,
            then,
            otherwise,
            ..
        } => {
            collect_expr(texts, alloc, test)?;
            collect_expr(texts, alloc, then)?;
            collect_expr(texts, alloc, otherwise)
        }
        TypedExpr::AssignDeclared {
            value,
            declaration,
            address,
            ..
        } => {
            collect_expr(texts, alloc, value)?;
            collect_expr(texts, alloc, declaration)?;
            collect_all(texts, alloc, address.items())
        }
        TypedExpr::Assign {
            value: a,
            address: all,
            ..
        }
        | TypedExpr::Update {
            value: a,
            address: all,
            ..
        }
        | TypedExpr::CallOf {
            object: a,
            arguments: all,
            ..
        }
        | TypedExpr::SporkOf {
            object: a,
            arguments: all,
            ..
        } => {
            collect_expr(texts, alloc, a)?;
            collect_all(texts, alloc, all.items())
        }
    }
}

// Enters those of expressions, one after another.
#[cycle(expr_strings)]
#[tactic(auto, using(crate::proofs::Trees::expr_walks))]
fn collect_all(texts: &mut Texts, alloc: Global, all: &[TypedExpr]) -> Result<(), Memory>
    ensures { OnOk result (texts.new ≡ once_each texts.old (exprs_texts (exprs_of all.now))) }
{
    for e in all {
        collect_expr(texts, alloc, e)?;
    }
    Ok(())
}

// Enters the strings of a statement that are not entered yet, in the order of its code.
#[cycle(stmt_strings)]
#[tactic(auto, using(crate::proofs::Trees::stmt_walks))]
fn collect_stmt(texts: &mut Texts, alloc: Global, t: &TypedStmt) -> Result<(), Memory>
    ensures { OnOk result (texts.new ≡ once_each texts.old (stmt_texts (view_stmt t.now))) }
{
    match t {
        TypedStmt::Expr { value, .. } | TypedStmt::Return { value, .. } => {
            collect_expr(texts, alloc, value)
        }
        TypedStmt::Block { statements } => collect_block(texts, alloc, statements.items()),
        TypedStmt::Print { items, .. } => collect_all(texts, alloc, items.items()),
        TypedStmt::If {
            test,
            then,
            otherwise,
            ..
        } => {
            collect_expr(texts, alloc, test)?;
            collect_stmt(texts, alloc, then)?;
            collect_stmt(texts, alloc, otherwise)
        }
        TypedStmt::Loop { test, body, .. }
        | TypedStmt::Repeat {
            count: test,
            body,
            ..
        } => {
            collect_expr(texts, alloc, test)?;
            collect_stmt(texts, alloc, body)
        }
        TypedStmt::LoopLast { body, test, .. } => {
            collect_stmt(texts, alloc, body)?;
            collect_expr(texts, alloc, test)
        }
        TypedStmt::For {
            start,
            test,
            step,
            body,
            ..
        } => {
            collect_stmt(texts, alloc, start)?;
            collect_expr(texts, alloc, test)?;
            collect_stmt(texts, alloc, body)?;
            collect_stmt(texts, alloc, step)
        }
        TypedStmt::ForEver {
            start,
            step,
            body,
            ..
        } => {
            collect_stmt(texts, alloc, start)?;
            collect_stmt(texts, alloc, body)?;
            collect_stmt(texts, alloc, step)
        }
        TypedStmt::ForEach { .. } | TypedStmt::Break { .. } | TypedStmt::Continue { .. } => Ok(()),
    }
}

// Enters those of statements, one after another.
#[cycle(stmt_strings)]
#[tactic(auto, using(crate::proofs::Trees::stmt_walks))]
fn collect_block(texts: &mut Texts, alloc: Global, all: &[TypedStmt]) -> Result<(), Memory>
    ensures { OnOk result (texts.new ≡ once_each texts.old (stmts_texts (stmts_of all.now))) }
{
    for t in all {
        collect_stmt(texts, alloc, t)?;
    }
    Ok(())
}

// Enters that of the default that a function ends with, where it is a string.
fn collect_default(texts: &mut Texts, alloc: Global, kind: Kind) -> Result<(), Memory>
    ensures { OnOk result (texts.new ≡ once_each texts.old (default_texts kind)) }
{
    match kind {
        Kind::One(Elem::Text) => texts.add(alloc, b""),
        _ => Ok(()),
    }
}

/// The strings of functions, of which each has its number by its first use.
#[tactic(auto, using(crate::proofs::Trees::stmt_walks))]
pub fn collect_texts(alloc: Global, funs: &[TypedFun]) -> Result<Texts, Memory>
    ensures { IfOk result (λ texts. texts ≡ once_each [] (funs_texts (map view_fun funs.now))) }
{
    let mut texts = Texts::new(alloc);
    for fun in funs {
        collect_stmt(&mut texts, alloc, &fun.body)?;
        collect_default(&mut texts, alloc, fun.result)?;
    }
    Ok(texts)
}
