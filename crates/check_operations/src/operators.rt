//! Operators on values.
ghost use Rattle.std.specs.Prelude.{◌≡◌, [], IfOk, IfErr};
ghost use Rattle.ck_syntax.specs.declared.operator.BinaryOp.TheVariants.{AndAlso as and_also, OrElse as or_else};
ghost use Rattle.ck_typed.specs.View.{view_expr};
ghost use Rattle.check_scope.specs.Expressions as definition;
ghost use Rattle.check_scope.specs.Denotations.{value};
ghost use Rattle.check_scope.specs.View.{view_typed, Answers, view_value};
ghost use Rattle.type_table.specs.Answer.{gives};

use check_scope::{Scope, Typed, beside, fits, is_int, mismatch, taken_as, value_at, widened_if};
use ck_syntax::BinaryOp;
use ck_typed::{Binary, TypedExpr, Unary};
use ck_values::{Elem, Kind, Op1};
use std::alloc::Global;
use type_rules::{Joined, join};
use type_table::{FaultKind, TypeFault};

/// An operator on its operands, where it takes them.
fn joined_meaning(
    alloc: Global,
    scope: &Scope,
    line: u32,
    left: Typed,
    right: Typed,
    joined: Option<Joined>,
) -> Result<Typed, TypeFault>
    ensures { Answers view_value result
        (definition.joined_meaning scope.now line (view_typed left) (view_typed right) joined) }
{
    let Some(joined) = joined else {
        return Err(mismatch(scope, line));
    };
    let left = widened_if(alloc, joined.widens_left, left)?;
    let right = widened_if(alloc, joined.widens_right, right)?;
    let binary = TypedExpr::Binary {
        operation: Binary::Operator(joined.code),
        left,
        right,
        place: scope.place(line),
    };
    value_at(alloc, scope, line, binary, Kind::One(joined.gives))
}

/// An operator on its operands by their types.
fn join_meaning(
    alloc: Global,
    parents: &[u32],
    scope: &Scope,
    line: u32,
    operator: BinaryOp,
    left: Typed,
    right: Typed,
) -> Result<Typed, TypeFault>
    ensures { Answers view_value result
        (definition.join_meaning parents.now scope.now line operator (view_typed left)
        (view_typed right)) }
{
    let joined = join(parents, operator, left.kind, right.kind);
    joined_meaning(alloc, scope, line, left, right, joined)
}

/// `array << added`
fn append_meaning(
    alloc: Global,
    parents: &[u32],
    scope: &Scope,
    line: u32,
    elem: Elem,
    array: Typed,
    added: Typed,
) -> Result<Typed, TypeFault>
    ensures { Answers view_value result
        (definition.append_meaning parents.now scope.now line elem (view_typed array)
        (view_typed added)) }
{
    if !fits(parents, &added, Kind::One(elem)) {
        return Err(mismatch(scope, line));
    }
    let kind = array.kind;
    let append = TypedExpr::Binary {
        operation: Binary::Append,
        left: array.expr,
        right: taken_as(alloc, added, Kind::One(elem))?,
        place: scope.place(line),
    };
    value_at(alloc, scope, line, append, kind)
}

/// `<<`, which appends to an array and shifts an int.
fn shift_meaning(
    alloc: Global,
    parents: &[u32],
    scope: &Scope,
    line: u32,
    left: Typed,
    right: Typed,
) -> Result<Typed, TypeFault>
    ensures { Answers view_value result
        (definition.shift_meaning parents.now scope.now line (view_typed left) (view_typed right)
        left.kind) }
{
    match left.kind {
        Kind::Row(elem) => append_meaning(alloc, parents, scope, line, elem, left, right),
        _ => {
            let shift = BinaryOp::ShiftLeft;
            join_meaning(alloc, parents, scope, line, shift, left, right)
        }
    }
}

/// Whether two values are ints.
pub(crate) fn are_ints(left: &Typed, right: &Typed) -> bool
    ensures { result ≡ definition.are_ints (view_typed left.now) (view_typed right.now) }
{
    is_int(left.kind) && is_int(right.kind)
}

/// `left && right`
fn and_meaning(
    alloc: Global,
    scope: &Scope,
    line: u32,
    left: Typed,
    right: Typed,
) -> Result<Typed, TypeFault>
    ensures { Answers view_value result
        (definition.binary_meaning [] scope.now line and_also (view_typed left)
        (view_typed right)) }
{
    if !are_ints(&left, &right) {
        return Err(mismatch(scope, line));
    }
    let and = TypedExpr::And {
        left: left.expr,
        right: right.expr,
        place: scope.place(line),
    };
    value_at(alloc, scope, line, and, Kind::One(Elem::Int))
}

/// `left || right`
fn or_meaning(
    alloc: Global,
    scope: &Scope,
    line: u32,
    left: Typed,
    right: Typed,
) -> Result<Typed, TypeFault>
    ensures { Answers view_value result
        (definition.binary_meaning [] scope.now line or_else (view_typed left) (view_typed right)) }
{
    if !are_ints(&left, &right) {
        return Err(mismatch(scope, line));
    }
    let or = TypedExpr::Or {
        left: left.expr,
        right: right.expr,
        place: scope.place(line),
    };
    value_at(alloc, scope, line, or, Kind::One(Elem::Int))
}

/// An operator between two values.
pub fn binary_meaning(
    alloc: Global,
    parents: &[u32],
    scope: &Scope,
    line: u32,
    operator: BinaryOp,
    left: Typed,
    right: Typed,
) -> Result<Typed, TypeFault>
    ensures { Answers view_value result
        (definition.binary_meaning parents.now scope.now line operator (view_typed left)
        (view_typed right)) }
{
    match operator {
        BinaryOp::AndAlso => and_meaning(alloc, scope, line, left, right),
        BinaryOp::OrElse => or_meaning(alloc, scope, line, left, right),
        BinaryOp::ShiftLeft => shift_meaning(alloc, parents, scope, line, left, right),
        _ => {
            let (left_kind, right_kind) = (left.kind, right.kind);
            let left = beside(alloc, left, right_kind)?;
            let right = beside(alloc, right, left_kind)?;
            join_meaning(alloc, parents, scope, line, operator, left, right)
        }
    }
}

/// `-operand`
pub(crate) fn negated(
    alloc: Global,
    scope: &Scope,
    line: u32,
    operand: Typed,
) -> Result<Typed, TypeFault>
    ensures { Answers view_value result
        (definition.negated scope.now line (view_typed operand) operand.kind) }
{
    let operator = match operand.kind {
        Kind::One(Elem::Int) => Op1::NegInt,
        Kind::One(Elem::Float) => Op1::NegFloat,
        Kind::One(Elem::Dur) => Op1::NegDur,
        _ => return Err(mismatch(scope, line)),
    };
    let kind = operand.kind;
    let unary = TypedExpr::Unary {
        operation: Unary::Operator(operator),
        operand: operand.expr,
        place: scope.place(line),
    };
    value_at(alloc, scope, line, unary, kind)
}

/// `!operand`
pub(crate) fn inverted(
    alloc: Global,
    scope: &Scope,
    line: u32,
    operand: Typed,
) -> Result<Typed, TypeFault>
    ensures { Answers view_value result (definition.inverted scope.now line (view_typed operand)) }
{
    if !is_int(operand.kind) {
        return Err(mismatch(scope, line));
    }
    let unary = TypedExpr::Unary {
        operation: Unary::Operator(Op1::NotInt),
        operand: operand.expr,
        place: scope.place(line),
    };
    value_at(alloc, scope, line, unary, Kind::One(Elem::Int))
}
