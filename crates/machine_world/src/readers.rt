//! Values whose types are known, and copies of values.
ghost use Rattle.std.specs.Prelude.{◌≡◌, ◌-◌, ◌<◌, IfOk};
ghost use Rattle.ck_values.specs.declared.value.Value.TheVariants.{Ref as To};
ghost use Rattle.ck_values.specs.Datum.{meant, AnInt, AFloat, ADur};
ghost use Rattle.ck_store.specs.Operators.{int_in, float_in, dur_in};
ghost use Rattle.ck_store.specs.Store.{IsFitting};
ghost use Rattle.machine_world.specs.Tries.{IsReference};

use ck_values::{Ref, Value};
use fixed_point::{Fix, Memory};
use std::alloc::Global;
use std::mem;

/// The int that a value is.
pub fn int(v: &Value) -> i64
    requires { IsFitting (int_in (meant v.now)) }
    ensures { meant v.now ≡ AnInt result }
{
    match v {
        Value::Int(n) => *n,
        _ => unreachable!(),
    }
}

/// The float that a value is.
pub fn float(v: &Value) -> Fix
    requires { IsFitting (float_in (meant v.now)) }
    ensures { meant v.now ≡ AFloat result }
{
    match v {
        Value::Float(x) => *x,
        _ => unreachable!(),
    }
}

/// The samples of a dur.
pub fn dur(v: &Value) -> i64
    requires { IsFitting (dur_in (meant v.now)) }
    ensures { meant v.now ≡ ADur result }
{
    match v {
        Value::Dur(n) => *n,
        _ => unreachable!(),
    }
}

/// The object that a value refers to.
#[inline(always)]
pub fn reference(v: &Value) -> Ref
    requires { IsReference (meant v.now) }
    ensures { v.now ≡ To result }
{
    match v {
        Value::Ref(at) => *at,
        _ => unreachable!(),
    }
}

/// Lets a reference go, which holds no memory.
#[inline(always)]
pub fn let_reference_go(v: Value)
    requires { IsReference (meant v) }
{
    match v {
        Value::Ref(_) => {}
        _ => unreachable!(),
    }
}

/// An equal value. Ints, floats and references go the short way.
#[inline(always)]
pub fn copied(alloc: Global, v: &Value) -> Result<Value, Memory>
    ensures { IfOk result (λ copy. copy ≡ v.now) }
{
    match v {
        Value::Int(n) => Ok(Value::Int(*n)),
        Value::Float(x) => Ok(Value::Float(*x)),
        Value::Ref(at) => Ok(Value::Ref(*at)),
        _ => copied_apart(alloc, v),
    }
}

// The same by a call. Room for its answer is made here, and so not where the call isn't made.
#[inline(always)]
fn copied_apart(alloc: Global, v: &Value) -> Result<Value, Memory>
    ensures { IfOk result (λ copy. copy ≡ v.now) }
{
    match copied_any(alloc, v) {
        Ok(copy) => Ok(copy),
        Err(memory) => Err(memory),
    }
}

/// A value equal to one of any type.
#[inline(never)]
fn copied_any(alloc: Global, v: &Value) -> Result<Value, Memory>
    ensures { IfOk result (λ copy. copy ≡ v.now) }
{
    v.try_clone(alloc)
}

/// Lets an int go, which holds no memory: nothing is looked at.
#[inline(always)]
pub fn let_int_go(v: Value)
    requires { IsFitting (int_in (meant v)) }
{
    mem::forget(v);
}

/// Lets a float go, which holds no memory either.
#[inline(always)]
pub fn let_float_go(v: Value)
    requires { IsFitting (float_in (meant v)) }
{
    mem::forget(v);
}
