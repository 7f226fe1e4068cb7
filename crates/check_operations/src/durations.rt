//! `count :: unit`: so many of a unit, or so many times a dur.
ghost use Rattle.check_scope.specs.Expressions as definition;
ghost use Rattle.check_scope.specs.View.{view_typed, Answers, view_value};

use crate::words::{Samples, samples_of};
use check_scope::{Scope, Typed, mismatch, value_at};
use ck_syntax::TimeUnit;
use ck_typed::{Binary, TypedExpr, Unary};
use ck_values::{Elem, Kind, Op2};
use std::alloc::Global;
use type_table::TypeFault;

/// So many of a unit.
fn units_meaning(
    alloc: Global,
    scope: &Scope,
    line: u32,
    count: Typed,
    unit: TimeUnit,
) -> Result<Typed, TypeFault>
    ensures { Answers view_value result
        (definition.units_meaning scope.now line (view_typed count) (definition.samples_of unit)
        count.kind) }
{
    let Samples {
        numerator,
        denominator,
    } = samples_of(unit);
    let operation = match count.kind {
        Kind::One(Elem::Int) => Unary::UnitInt {
            numerator,
            denominator,
        },
        Kind::One(Elem::Float) => Unary::UnitFloat {
            numerator,
            denominator,
        },
        _ => return Err(mismatch(scope, line)),
    };
    let units = TypedExpr::Unary {
        operation,
        operand: count.expr,
        place: scope.place(line),
    };
    value_at(alloc, scope, line, units, Kind::One(Elem::Dur))
}

/// So many times a dur.
fn times_meaning(
    alloc: Global,
    scope: &Scope,
    line: u32,
    count: Typed,
    dur: Typed,
) -> Result<Typed, TypeFault>
    ensures { Answers view_value result
        (definition.times_meaning scope.now line (view_typed count) (view_typed dur) count.kind
        dur.kind) }
{
    let operator = match (count.kind, dur.kind) {
        (Kind::One(Elem::Int), Kind::One(Elem::Dur)) => Op2::MulIntDur,
        (Kind::One(Elem::Float), Kind::One(Elem::Dur)) => Op2::MulFloatDur,
        _ => return Err(mismatch(scope, line)),
    };
    let times = TypedExpr::Binary {
        operation: Binary::Operator(operator),
        left: count.expr,
        right: dur.expr,
        place: scope.place(line),
    };
    value_at(alloc, scope, line, times, Kind::One(Elem::Dur))
}

/// So many of a unit, where the dur is a unit's name, and else so many times the dur.
pub fn dur_meaning(
    alloc: Global,
    scope: &Scope,
    line: u32,
    count: Typed,
    dur: Typed,
    unit: Option<TimeUnit>,
) -> Result<Typed, TypeFault>
    ensures { Answers view_value result
        (definition.dur_meaning scope.now line (view_typed count) (view_typed dur) unit) }
{
    match unit {
        Some(unit) => units_meaning(alloc, scope, line, count, unit),
        None => times_meaning(alloc, scope, line, count, dur),
    }
}
