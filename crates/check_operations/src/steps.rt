//! Operators of one operand.
ghost use Rattle.std.specs.Prelude.{◌≡◌, IfOk, IfErr, if◌then◌else◌};
ghost use Rattle.ck_values.specs.declared.kind.Elem.TheVariants.{Int as int};
ghost use Rattle.ck_values.specs.declared.kind.Kind.TheVariants.{One as one_of};
ghost use Rattle.ck_typed.specs.declared.expr.Spot.{Spot as Where};
ghost use Rattle.ck_typed.specs.Tree.{Expr, Exprs, Prefix as prefix, Postfix as postfix};
ghost use Rattle.ck_typed.specs.View.{exprs_of};
ghost use Rattle.check_scope.specs.Expressions as definition;
ghost use Rattle.check_scope.specs.Scope.{place as place_of};
ghost use Rattle.check_scope.specs.View.{view_denoted, Answers, view_value};
ghost use Rattle.type_table.specs.Answer.{fault, IsFault};

use crate::operators::{inverted, negated};
use check_scope::{Denoted, Scope, Target, Typed, as_value, mismatch, value_at};
use ck_syntax::{PostfixOp, PrefixOp};
use ck_typed::{Direction, TypedExpr};
use ck_values::{Elem, Kind};
use std::alloc::Global;
use type_table::TypeFault;

/// The int variable, field or item that `++` and `--` take. Anything else is their own fault.
fn stepped(scope: &Scope, line: u32, operand: Denoted) -> Result<Target, TypeFault>
    ensures target { IfOk result
        (λ t. (step : Where → Exprs → Expr) →
        definition.stepped scope.now line (view_denoted operand) step
        ≡ definition.value_at scope.now line (step t.spot (exprs_of t.address)) (one_of int)) }
    ensures refused { IfErr result
        (λ why. IsFault why → (step : Where → Exprs → Expr) →
        definition.stepped scope.now line (view_denoted operand) step
        ≡ fault why) }
{
    match operand {
        Denoted::Target(target) => match target.kind {
            Kind::One(Elem::Int) => Ok(target),
            _ => Err(mismatch(scope, line)),
        },
        _ => Err(mismatch(scope, line)),
    }
}

/// `++operand` and `--operand`, or `operand++` and `operand--`.
#[tactic(auto, using(check_scope::proofs::Rows::rows))]
fn step(
    alloc: Global,
    scope: &Scope,
    line: u32,
    is_before: bool,
    direction: Direction,
    operand: Denoted,
) -> Result<Typed, TypeFault>
    ensures { Answers view_value result
        (definition.stepped scope.now line (view_denoted operand)
        (λ spot address. if is_before
        then prefix direction spot address (place_of scope.now line)
        else postfix direction spot address (place_of scope.now line))) }
{
    let Target { spot, address, .. } = stepped(scope, line, operand)?;
    let place = scope.place(line);
    let step = if is_before {
        TypedExpr::Prefix {
            direction,
            spot,
            address,
            place,
        }
    } else {
        TypedExpr::Postfix {
            direction,
            spot,
            address,
            place,
        }
    };
    value_at(alloc, scope, line, step, Kind::One(Elem::Int))
}

/// An operator before its operand.
pub fn prefix_meaning(
    alloc: Global,
    scope: &Scope,
    line: u32,
    operand_line: u32,
    operator: PrefixOp,
    operand: Denoted,
) -> Result<Typed, TypeFault>
    ensures { Answers view_value result
        (definition.prefix_meaning scope.now line operand_line operator (view_denoted operand)) }
{
    match operator {
        PrefixOp::Negate => {
            let operand = as_value(alloc, scope, operand_line, operand)?;
            negated(alloc, scope, line, operand)
        }
        PrefixOp::Not => {
            let operand = as_value(alloc, scope, operand_line, operand)?;
            inverted(alloc, scope, line, operand)
        }
        PrefixOp::Increment => step(alloc, scope, line, true, Direction::Up, operand),
        PrefixOp::Decrement => step(alloc, scope, line, true, Direction::Down, operand),
    }
}

/// `++` or `--` behind its operand.
pub fn postfix_meaning(
    alloc: Global,
    scope: &Scope,
    line: u32,
    operator: PostfixOp,
    operand: Denoted,
) -> Result<Typed, TypeFault>
    ensures { Answers view_value result
        (definition.postfix_meaning scope.now line operator (view_denoted operand)) }
{
    let direction = match operator {
        PostfixOp::Increment => Direction::Up,
        PostfixOp::Decrement => Direction::Down,
    };
    step(alloc, scope, line, false, direction, operand)
}
