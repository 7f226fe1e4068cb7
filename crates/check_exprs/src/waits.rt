//! Waits: what is chucked to `now`, and what is called on `me`.
ghost use Rattle.std.specs.Prelude.{◌≡◌, ◌+◌, ◌^◌, ◌<◌, ◌≤◌, length, if◌then◌else◌};
ghost use Rattle.std.specs.Option.{option_map};
ghost use Rattle.ck_syntax.specs.Tree.{expr_line};
ghost use Rattle.ck_syntax.specs.View.{view_expr};
ghost use Rattle.type_rules.specs.Fitting.{is_below};
ghost use Rattle.check_scope.specs.Expressions as definition;
ghost use Rattle.check_scope.specs.View.{view_typed, view_callee, view_denoted, value_meant, Answers, view_value};

use check_calls::chuck_meaning;
use check_names::{auto_chucked, member_meaning};
use check_scope::{Callee, Denoted, Scope, Typed};
use ck_base::Text;
use ck_syntax::{ChuckOp, Constant, Expr, ExprKind};
use ck_typed::{TypedExpr, Unary};
use ck_values::{Elem, Kind};
use std::alloc::Global;
use type_table::{FaultKind, Table, TypeFault};

/// Whether a class is `Event`, or stands below it.
fn is_event(parents: &[u32], class: u32) -> bool
    ensures { result ≡ is_below parents.now class 1 }
{
    let event = Kind::One(Elem::Class(1));
    type_rules::fits(parents, Kind::One(Elem::Class(class)), event)
}

/// `l => now`: a dur, a time or an event is waited for.
fn wait_meaning(
    alloc: Global,
    parents: &[u32],
    scope: &Scope,
    line: u32,
    value: Typed,
) -> Result<Typed, TypeFault>
    ensures { Answers view_value result
        (definition.wait_meaning parents.now scope.now line (view_typed value) value.kind) }
{
    let operation = match value.kind {
        Kind::One(Elem::Dur) => Unary::WaitDur,
        Kind::One(Elem::Time) => Unary::WaitTime,
        Kind::One(Elem::Class(class)) if is_event(parents, class) => Unary::WaitEvent,
        _ => return Err(scope.wrong(line, FaultKind::NotAssignable)),
    };
    let place = scope.place(line);
    let wait = TypedExpr::Unary {
        operation,
        operand: value.expr,
        place,
    };
    Typed::new(alloc, wait, Kind::One(Elem::Time), place)
}

/// `l +=> now` takes a dur.
fn later_meaning(alloc: Global, scope: &Scope, line: u32, value: Typed) -> Result<Typed, TypeFault>
    ensures { Answers view_value result
        (definition.later_meaning scope.now line (view_typed value) value.kind) }
{
    let Kind::One(Elem::Dur) = value.kind else {
        return Err(scope.wrong(line, FaultKind::Mismatch));
    };
    let place = scope.place(line);
    let wait = TypedExpr::Unary {
        operation: Unary::WaitDur,
        operand: value.expr,
        place,
    };
    Typed::new(alloc, wait, Kind::One(Elem::Time), place)
}

/// What is chucked to `now`.
fn now_meaning(
    alloc: Global,
    parents: &[u32],
    scope: &Scope,
    line: u32,
    operator: ChuckOp,
    value: Typed,
) -> Result<Typed, TypeFault>
    ensures { Answers view_value result
        (definition.now_meaning parents.now scope.now line operator (view_typed value)) }
{
    match operator {
        ChuckOp::Chuck => wait_meaning(alloc, parents, scope, line, value),
        ChuckOp::Add => later_meaning(alloc, scope, line, value),
        ChuckOp::Unchuck => Err(scope.wrong(line, FaultKind::Mismatch)),
        _ => Err(scope.wrong(line, FaultKind::NotAssignable)),
    }
}

/// Whether this is the word `now`.
fn is_now(expr: &Expr) -> bool
    ensures { result ≡ definition.is_now (view_expr expr.now) }
{
    matches!(&expr.kind, ExprKind::Constant(Constant::Now))
}

/// What is chucked to `now`, or to anything else but a declaration with `auto`.
#[tactic(auto, using(ck_syntax::proofs::Views::line_is))]
fn other_chucked(
    alloc: Global,
    table: &Table,
    scope: &Scope,
    line: u32,
    operator: ChuckOp,
    value: Typed,
    right: &Expr,
    target: Denoted,
) -> Result<Typed, TypeFault>
    ensures { Answers view_value result
        ((if definition.is_now (view_expr right.now) then definition.now_meaning
        table.now.parents scope.now line operator (view_typed value) else
        definition.chuck_meaning table.now scope.now line (expr_line (view_expr right.now))
        operator (view_typed value) (view_denoted target))) }
{
    if is_now(right) {
        now_meaning(alloc, table.parents(), scope, line, operator, value)
    } else {
        chuck_meaning(
            alloc, table, scope, line, right.line, operator, value, target,
        )
    }
}

/// What is chucked to what an expression stands for.
#[tactic(auto, using(ck_syntax::proofs::Views::line_is))]
pub(crate) fn chucked(
    alloc: Global,
    table: &Table,
    scope: &mut Scope,
    line: u32,
    operator: ChuckOp,
    value: Typed,
    right: &Expr,
    target: Denoted,
) -> Result<Typed, TypeFault>
    requires few { length scope.old.locals < 2 ^ 32 }
    ensures chucked { Answers (λ t. value_meant t scope.new) result
        (definition.chucked table.now scope.old line operator (view_typed value)
        (view_expr right.now) (view_denoted target)) }
    ensures grown { length scope.new.locals ≤ length scope.old.locals + 1 }
{
    match target {
        Denoted::Auto { name, has_form } => auto_chucked(
            alloc, table, scope, line, right.line, operator, value, &name, has_form,
        ),
        target => other_chucked(alloc, table, scope, line, operator, value, right, target),
    }
}

/// `me.yield` and `me.exit`, which are forms of the word `me`.
pub(crate) fn wait_word(object: &Expr, name: &Text) -> Option<Callee>
    ensures { option_map view_callee result ≡ definition.wait_word (view_expr object.now) name.now }
{
    let ExprKind::Constant(Constant::Me) = &object.kind else {
        return None;
    };
    let name = name.bytes();
    if name == b"yield".as_slice() {
        Some(Callee::Yield)
    } else if name == b"exit".as_slice() {
        Some(Callee::Exit)
    } else {
        None
    }
}

/// A member of what an expression stands for, or a form of the word `me`.
pub(crate) fn member_or_wait(
    alloc: Global,
    table: &Table,
    scope: &Scope,
    line: u32,
    object_line: u32,
    object: Denoted,
    name: &Text,
    word: Option<Callee>,
) -> Result<Denoted, TypeFault>
    ensures { Answers view_denoted result
        (definition.member_or_wait table.now scope.now line object_line (view_denoted object)
        name.now (option_map view_callee word)) }
{
    match word {
        Some(callee) => Ok(Denoted::Callable(callee)),
        None => member_meaning(alloc, table, scope, line, object_line, object, name),
    }
}
