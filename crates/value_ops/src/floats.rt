//! Operators on two floats.
ghost use Rattle.std.specs.Prelude.{◌≡◌, MatchResult};
ghost use Rattle.ck_values.specs.Datum.{AFloat, meant};
ghost use Rattle.ck_store.specs.Store.{Gives, Fails, IsFitting};
ghost use Rattle.ck_store.specs.Operators.{binary};

use crate::numbers::truth;
use ck_values::{Op2, Trap, Value};
use fixed_point::Fix;

/// The operator on two floats, which `binary` carries out too: the short way for a caller that
/// knows them to be floats. `DivisionByZero` comes exactly where a divisor is zero.
#[inline(always)] // floats are what sounds are computed with
#[tactic(auto, unfolding(ck_store::specs::Operators::binary))]
pub fn of_floats(op: Op2, a: Fix, b: Fix) -> Result<Value, Trap>
    requires { IsFitting (binary op (AFloat a) (AFloat b)) }
    ensures { MatchResult result
        (λ v. binary op (AFloat a) (AFloat b) ≡ Gives (meant v))
        (λ trap. binary op (AFloat a) (AFloat b) ≡ Fails trap) }
{
    let (x, y) = (a.raw(), b.raw());
    Ok(match op {
        Op2::AddFloatFloat => Value::Float(a.add(b)),
        Op2::SubFloatFloat => Value::Float(a.sub(b)),
        Op2::MulFloatFloat => Value::Float(a.mul(b)),
        Op2::DivFloatFloat => Value::Float(a.div(b).ok_or(Trap::DivisionByZero)?),
        Op2::ModFloatFloat => Value::Float(a.rem(b).ok_or(Trap::DivisionByZero)?),
        Op2::EqFloatFloat => Value::Int(truth(x == y)),
        Op2::NeFloatFloat => Value::Int(truth(x != y)),
        Op2::LtFloatFloat => Value::Int(truth(x < y)),
        Op2::GtFloatFloat => Value::Int(truth(x > y)),
        Op2::LeFloatFloat => Value::Int(truth(x <= y)),
        Op2::GeFloatFloat => Value::Int(truth(x >= y)),
        _ => unreachable!(),
    })
}
