//! The operators, by what their operands are.
ghost use Rattle.std.specs.Prelude.{◌≡◌, false, IfOk, IfErr, MatchResult};
ghost use Rattle.ck_values.specs.Datum.{meant, AShred, ARef, AnInt};
ghost use Rattle.ck_store.specs.Store.{Gives, Fails, IsFitting};
ghost use Rattle.ck_store.specs.Steps.{is_zero};
ghost use Rattle.ck_store.specs.Operators.{unary, binary};
ghost use Rattle.value_ops.specs.Ends.{makes_string, IsEarlyEnd};

use crate::end::OpEnd;
use crate::floats::of_floats;
use crate::ints::of_ints;
use crate::numbers::{clamped_negation, truth};
use crate::spans::{
    of_dur_and_float, of_dur_and_int, of_dur_and_time, of_durs, of_float_and_dur, of_int_and_dur,
    of_time_and_dur, of_times,
};
use crate::strings::{joined, of_strings};
use ck_values::{Op1, Op2, Trap, Value};
use fixed_point::Fix;
use std::alloc::Global;

/// The operator of two operands, whose types are those that the operator names. `DivisionByZero`
/// comes exactly where a divisor is zero, and `Memory` only from an operator that makes a string.
/// `StringLimit` comes where the string has more than 65,536 bytes; there may be no memory for them
/// before that is known.
#[tactic(auto, unfolding(ck_store::specs::Operators::binary))]
pub fn binary(alloc: Global, op: Op2, a: &Value, b: &Value) -> Result<Value, OpEnd>
    requires { IsFitting (binary op (meant a.now) (meant b.now)) }
    ensures given { IfOk result (λ v. binary op (meant a.now) (meant b.now) ≡ Gives (meant v)) }
    ensures end { IfErr result (λ end.
        IsEarlyEnd (makes_string op) end (binary op (meant a.now) (meant b.now))) }
{
    match op {
        Op2::AddTextText
        | Op2::AddTextInt
        | Op2::AddTextFloat
        | Op2::AddIntText
        | Op2::AddFloatText => joined(alloc, a, b),
        _ => of_two(op, a, b).map_err(OpEnd::Trap),
    }
}

/// The operator of two operands that makes no string.
fn of_two(op: Op2, a: &Value, b: &Value) -> Result<Value, Trap>
    requires fitting { IsFitting (binary op (meant a.now) (meant b.now)) }
    requires no_string { makes_string op ≡ false }
    ensures { MatchResult result
        (λ v. binary op (meant a.now) (meant b.now) ≡ Gives (meant v))
        (λ trap. binary op (meant a.now) (meant b.now) ≡ Fails trap) }
{
    match (a, b) {
        (Value::Int(a), Value::Int(b)) => Ok(Value::Int(of_ints(op, *a, *b)?)),
        (Value::Float(a), Value::Float(b)) => of_floats(op, *a, *b),
        (Value::Text(a), Value::Text(b)) => Ok(Value::Int(of_strings(op, a, b))),
        (Value::Shred(a), Value::Shred(b)) => Ok(Value::Int(of_shreds(op, *a, *b))),
        (Value::Ref(a), Value::Ref(b)) => Ok(Value::Int(of_objects(op, a.serial, b.serial))),
        (Value::Dur(a), Value::Dur(b)) => of_durs(op, *a, *b),
        (Value::Time(a), Value::Time(b)) => Ok(of_times(op, *a, *b)),
        (Value::Time(a), Value::Dur(b)) => of_time_and_dur(op, *a, *b),
        (Value::Dur(a), Value::Time(b)) => Ok(of_dur_and_time(op, *a, *b)),
        (Value::Int(a), Value::Dur(b)) => Ok(of_int_and_dur(op, *a, *b)),
        (Value::Dur(a), Value::Int(b)) => of_dur_and_int(op, *a, *b),
        (Value::Float(a), Value::Dur(b)) => Ok(of_float_and_dur(op, *a, *b)),
        (Value::Dur(a), Value::Float(b)) => of_dur_and_float(op, *a, *b),
        _ => unreachable!(),
    }
}

/// The test of two shreds, by their numbers.
#[tactic(auto, unfolding(ck_store::specs::Operators::binary))]
fn of_shreds(op: Op2, a: u64, b: u64) -> i64
    requires { IsFitting (binary op (AShred a) (AShred b)) }
    ensures { binary op (AShred a) (AShred b) ≡ Gives (AnInt result) }
{
    match op {
        Op2::EqShredShred => truth(a == b),
        Op2::NeShredShred => truth(a != b),
        _ => unreachable!(),
    }
}

/// The test of two references, by their objects' numbers.
#[tactic(auto, unfolding(ck_store::specs::Operators::binary))]
fn of_objects(op: Op2, a: u64, b: u64) -> i64
    requires { IsFitting (binary op (ARef a) (ARef b)) }
    ensures { binary op (ARef a) (ARef b) ≡ Gives (AnInt result) }
{
    match op {
        Op2::EqRefRef => truth(a == b),
        Op2::NeRefRef => truth(a != b),
        _ => unreachable!(),
    }
}

/// The operator of one operand, whose type is the one that the operator names.
#[tactic(auto, unfolding(ck_store::specs::Operators::unary, ck_store::specs::Steps::is_zero))]
pub fn unary(op: Op1, a: Value) -> Value
    requires { IsFitting (unary op (meant a)) }
    ensures { unary op (meant a) ≡ Gives (meant result) }
{
    match (op, a) {
        (Op1::NegInt, Value::Int(n)) => Value::Int(n.wrapping_neg()),
        (Op1::NegFloat, Value::Float(x)) => Value::Float(x.neg()),
        (Op1::NegDur, Value::Dur(samples)) => Value::Dur(clamped_negation(samples)),
        (Op1::NotInt, Value::Int(n)) => Value::Int(truth(n == 0)),
        (Op1::BoolInt, Value::Int(n)) => Value::Int(truth(n != 0)),
        (Op1::WidenInt, Value::Int(n)) => Value::Float(Fix::from_int(n)),
        (Op1::CutFloat, Value::Float(x)) => Value::Int(x.to_int()),
        _ => unreachable!(),
    }
}

/// Whether an int is 0.
#[tactic(auto, unfolding(ck_store::specs::Steps::is_zero))]
pub fn is_zero(v: &Value) -> bool
    requires { IsFitting (is_zero (meant v.now)) }
    ensures { is_zero (meant v.now) ≡ Gives result }
{
    match v {
        Value::Int(n) => *n == 0,
        _ => unreachable!(),
    }
}
