//! Operators on durs and times, which are counts of samples.
ghost use Rattle.std.specs.Prelude.{◌≡◌, MatchResult};
ghost use Rattle.ck_values.specs.Datum.{AnInt, AFloat, ADur, ATime, meant};
ghost use Rattle.ck_store.specs.Store.{Gives, Fails, IsFitting};
ghost use Rattle.ck_store.specs.Operators.{binary};

use crate::numbers::{
    clamped_difference, clamped_product, clamped_sum, floored, ratio, remainder, truth,
};
use ck_values::{Op2, Trap, Value};
use fixed_point::Fix;

/// The operator on two durs.
#[tactic(auto, unfolding(ck_store::specs::Operators::binary))]
pub(crate) fn of_durs(op: Op2, a: i64, b: i64) -> Result<Value, Trap>
    requires { IsFitting (binary op (ADur a) (ADur b)) }
    ensures { MatchResult result
        (λ v. binary op (ADur a) (ADur b) ≡ Gives (meant v))
        (λ trap. binary op (ADur a) (ADur b) ≡ Fails trap) }
{
    Ok(match op {
        Op2::AddDurDur => Value::Dur(clamped_sum(a, b)),
        Op2::SubDurDur => Value::Dur(clamped_difference(a, b)),
        Op2::DivDurDur => Value::Float(ratio(a, b)?),
        Op2::ModDurDur => Value::Dur(remainder(a, b)?),
        Op2::EqDurDur => Value::Int(truth(a == b)),
        Op2::NeDurDur => Value::Int(truth(a != b)),
        Op2::LtDurDur => Value::Int(truth(a < b)),
        Op2::GtDurDur => Value::Int(truth(a > b)),
        Op2::LeDurDur => Value::Int(truth(a <= b)),
        Op2::GeDurDur => Value::Int(truth(a >= b)),
        _ => unreachable!(),
    })
}

/// The operator on two times.
#[tactic(auto, unfolding(ck_store::specs::Operators::binary))]
pub(crate) fn of_times(op: Op2, a: i64, b: i64) -> Value
    requires { IsFitting (binary op (ATime a) (ATime b)) }
    ensures { binary op (ATime a) (ATime b) ≡ Gives (meant result) }
{
    match op {
        Op2::SubTimeTime => Value::Dur(clamped_difference(a, b)),
        Op2::EqTimeTime => Value::Int(truth(a == b)),
        Op2::NeTimeTime => Value::Int(truth(a != b)),
        Op2::LtTimeTime => Value::Int(truth(a < b)),
        Op2::GtTimeTime => Value::Int(truth(a > b)),
        Op2::LeTimeTime => Value::Int(truth(a <= b)),
        Op2::GeTimeTime => Value::Int(truth(a >= b)),
        _ => unreachable!(),
    }
}

/// The operator on a time and a dur.
#[tactic(auto, unfolding(ck_store::specs::Operators::binary))]
pub(crate) fn of_time_and_dur(op: Op2, time: i64, dur: i64) -> Result<Value, Trap>
    requires { IsFitting (binary op (ATime time) (ADur dur)) }
    ensures { MatchResult result
        (λ v. binary op (ATime time) (ADur dur) ≡ Gives (meant v))
        (λ trap. binary op (ATime time) (ADur dur) ≡ Fails trap) }
{
    Ok(match op {
        Op2::AddTimeDur => Value::Time(clamped_sum(time, dur)),
        Op2::SubTimeDur => Value::Time(clamped_difference(time, dur)),
        Op2::DivTimeDur => Value::Float(ratio(time, dur)?),
        Op2::ModTimeDur => Value::Dur(remainder(time, dur)?),
        _ => unreachable!(),
    })
}

/// The operator on a dur and a time.
#[tactic(auto, unfolding(ck_store::specs::Operators::binary))]
pub(crate) fn of_dur_and_time(op: Op2, dur: i64, time: i64) -> Value
    requires { IsFitting (binary op (ADur dur) (ATime time)) }
    ensures { binary op (ADur dur) (ATime time) ≡ Gives (meant result) }
{
    match op {
        Op2::AddDurTime => Value::Time(clamped_sum(dur, time)),
        _ => unreachable!(),
    }
}

/// The operator on an int and a dur.
#[tactic(auto, unfolding(ck_store::specs::Operators::binary))]
pub(crate) fn of_int_and_dur(op: Op2, n: i64, dur: i64) -> Value
    requires { IsFitting (binary op (AnInt n) (ADur dur)) }
    ensures { binary op (AnInt n) (ADur dur) ≡ Gives (meant result) }
{
    match op {
        Op2::MulIntDur => Value::Dur(clamped_product(n, dur)),
        _ => unreachable!(),
    }
}

/// The operator on a dur and an int.
#[tactic(auto, unfolding(ck_store::specs::Operators::binary))]
pub(crate) fn of_dur_and_int(op: Op2, dur: i64, n: i64) -> Result<Value, Trap>
    requires { IsFitting (binary op (ADur dur) (AnInt n)) }
    ensures { MatchResult result
        (λ v. binary op (ADur dur) (AnInt n) ≡ Gives (meant v))
        (λ trap. binary op (ADur dur) (AnInt n) ≡ Fails trap) }
{
    match op {
        Op2::MulDurInt => Ok(Value::Dur(clamped_product(dur, n))),
        Op2::DivDurInt if n == 0 => Err(Trap::DivisionByZero),
        Op2::DivDurInt => Ok(Value::Dur(floored(dur, n))),
        _ => unreachable!(),
    }
}

/// The operator on a float and a dur.
#[tactic(auto, unfolding(ck_store::specs::Operators::binary))]
pub(crate) fn of_float_and_dur(op: Op2, x: Fix, dur: i64) -> Value
    requires { IsFitting (binary op (AFloat x) (ADur dur)) }
    ensures { binary op (AFloat x) (ADur dur) ≡ Gives (meant result) }
{
    match op {
        // The samples stand for a raw number here, so that the product is floored and clamped once.
        Op2::MulFloatDur => Value::Dur(x.mul(Fix::from_raw(dur)).raw()),
        _ => unreachable!(),
    }
}

/// The operator on a dur and a float.
#[tactic(auto, unfolding(ck_store::specs::Operators::binary))]
pub(crate) fn of_dur_and_float(op: Op2, dur: i64, x: Fix) -> Result<Value, Trap>
    requires { IsFitting (binary op (ADur dur) (AFloat x)) }
    ensures { MatchResult result
        (λ v. binary op (ADur dur) (AFloat x) ≡ Gives (meant v))
        (λ trap. binary op (ADur dur) (AFloat x) ≡ Fails trap) }
{
    Ok(match op {
        Op2::MulDurFloat => Value::Dur(Fix::from_raw(dur).mul(x).raw()),
        Op2::DivDurFloat => Value::Dur(ratio(dur, x.raw())?.raw()),
        _ => unreachable!(),
    })
}
