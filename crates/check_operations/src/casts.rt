//! Casts, and choices between two values.
ghost use Rattle.std.specs.Prelude.{◌≡◌, IfOk, IfErr};
ghost use Rattle.ck_values.specs.declared.operator.Op1.TheVariants.{CutFloat as cut_float};
ghost use Rattle.ck_typed.specs.Tree as form;
ghost use Rattle.ck_typed.specs.declared.operation.Unary.TheVariants as unary_op;
ghost use Rattle.ck_typed.specs.View.{view_expr};
ghost use Rattle.check_scope.specs.Expressions as definition;
ghost use Rattle.check_scope.specs.Denotations.{value};
ghost use Rattle.check_scope.specs.View.{view_typed, Answers, view_value};
ghost use Rattle.fixed_point.specs.Wanting.{out_of_memory};
ghost use Rattle.type_table.specs.declared.fault.TypeFault.TheVariants.{Memory as memory};

use check_scope::{
    Scope, Typed, beside, boxed, fits, is_int, mismatch, taken_as, typed_at, value_at, widened,
};
use ck_typed::{TypedExpr, Unary};
use ck_values::{Elem, Kind, Op1};
use std::alloc::Global;
use type_rules::{are_references, chosen};
use type_table::{FaultKind, Named, TypeFault, value_kind};

/// A value as one of this type: a number as a number, a reference as one that it fits.
fn cast_value(
    alloc: Global,
    parents: &[u32],
    scope: &Scope,
    line: u32,
    operand: Typed,
    kind: Kind,
) -> Result<Typed, TypeFault>
    ensures { Answers view_value result
        (definition.cast_value parents.now scope.now line (view_typed operand) operand.kind kind) }
{
    match (operand.kind, kind) {
        (Kind::One(Elem::Int), Kind::One(Elem::Int)) => {
            Ok(typed_at(scope, line, operand.expr, kind))
        }
        (Kind::One(Elem::Int), Kind::One(Elem::Float)) => {
            let expr = widened(alloc, operand)?;
            Ok(typed_at(scope, line, expr, kind))
        }
        (Kind::One(Elem::Float), Kind::One(Elem::Int)) => {
            let expr = cut(alloc, operand)?;
            Ok(typed_at(scope, line, expr, kind))
        }
        (Kind::One(Elem::Float), Kind::One(Elem::Float)) => {
            Ok(typed_at(scope, line, operand.expr, kind))
        }
        _ => {
            if !are_references(operand.kind) || !fits(parents, &operand, kind) {
                return Err(mismatch(scope, line));
            }
            let expr = taken_as(alloc, operand, kind)?;
            Ok(typed_at(scope, line, expr, kind))
        }
    }
}

/// A float as an int.
fn cut(alloc: Global, value: Typed) -> Result<Box<TypedExpr>, TypeFault>
    ensures made { IfOk result
        (λ e. view_expr e.value ≡ form.Unary (unary_op.Operator cut_float)
        (view_typed value).expr value.place) }
    ensures memory { IfErr result (λ why. why ≡ memory out_of_memory) }
{
    let place = value.place;
    let cut = TypedExpr::Unary {
        operation: Unary::Operator(Op1::CutFloat),
        operand: value.expr,
        place,
    };
    boxed(alloc, cut)
}

/// A value as one of this type, where there is one.
pub(crate) fn cast_to(
    alloc: Global,
    parents: &[u32],
    scope: &Scope,
    line: u32,
    operand: Typed,
    kind: Option<Kind>,
) -> Result<Typed, TypeFault>
    ensures { Answers view_value result
        (definition.cast_to parents.now scope.now line (view_typed operand) kind) }
{
    match kind {
        Some(kind) => cast_value(alloc, parents, scope, line, operand, kind),
        None => Err(mismatch(scope, line)),
    }
}

/// `operand $ T`, with so many pairs of brackets behind the name of T.
pub fn cast_meaning(
    alloc: Global,
    parents: &[u32],
    scope: &Scope,
    line: u32,
    operand: Typed,
    named: Named,
    brackets: usize,
) -> Result<Typed, TypeFault>
    ensures { Answers view_value result
        (definition.cast_meaning parents.now scope.now line (view_typed operand) named brackets) }
{
    if named.is_unknown() {
        return Err(scope.wrong(line, FaultKind::UnknownName));
    }
    let kind = value_kind(named, brackets);
    cast_to(alloc, parents, scope, line, operand, kind)
}

/// `test ? then : otherwise`, of the wider of two types.
pub fn choice_meaning(
    alloc: Global,
    parents: &[u32],
    scope: &Scope,
    line: u32,
    test: Typed,
    then: Typed,
    otherwise: Typed,
) -> Result<Typed, TypeFault>
    ensures { Answers view_value result
        (definition.choice_meaning parents.now scope.now line (view_typed test) (view_typed then)
        (view_typed otherwise)) }
{
    if !is_int(test.kind) {
        return Err(mismatch(scope, line));
    }
    let (first_kind, second_kind) = (then.kind, otherwise.kind);
    let then = beside(alloc, then, second_kind)?;
    let otherwise = beside(alloc, otherwise, first_kind)?;
    choice_between(alloc, parents, scope, line, test, then, otherwise)
}

/// A choice between values of whatever types.
fn choice_between(
    alloc: Global,
    parents: &[u32],
    scope: &Scope,
    line: u32,
    test: Typed,
    then: Typed,
    otherwise: Typed,
) -> Result<Typed, TypeFault>
    ensures { Answers view_value result
        (definition.choice_between parents.now scope.now line (view_typed test) (view_typed then)
        (view_typed otherwise)) }
{
    let Some(kind) = chosen(parents, then.kind, otherwise.kind) else {
        return Err(mismatch(scope, line));
    };
    let choice = TypedExpr::Choice {
        test: test.expr,
        then: taken_as(alloc, then, kind)?,
        otherwise: taken_as(alloc, otherwise, kind)?,
        place: scope.place(line),
    };
    value_at(alloc, scope, line, choice, kind)
}
