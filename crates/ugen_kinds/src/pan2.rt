ghost use Rattle.std.specs.Prelude.{◌≡◌, IsSome, Some};
ghost use Rattle.std.specs.Int.{int_min};
ghost use Rattle.fixed_point.specs.Fix.{one};
ghost use Rattle.ck_values.specs.Datum.{meant};
ghost use Rattle.ugen_kinds.specs.Pan2.{first_pan, panned, within_sides, pan_parameter, with_pan_parameter};

use crate::output::Output;
use ck_values::Value;
use fixed_point::Fix;
use ugen_names::Param;

/// The raw number of 1.0.
const ONE: i64 = 1 << 32;

/// A place between both sides: -1 is left, and 1 is right.
#[derive(Drop)]
pub struct Pan2 {
    pan: Fix,
}

impl Pan2 {
    /// In the middle.
    pub(crate) fn new() -> Pan2
        ensures { result ≡ first_pan }
    {
        Pan2 {
            pan: Fix::from_raw(0),
        }
    }

    /// The input on both sides.
    pub(crate) fn sides(&self, x: Fix) -> Output
        ensures { result ≡ panned self.now x }
    {
        let one = Fix::from_raw(ONE);
        Output {
            left: x.mul(at_most_one(one.sub(self.pan))),
            right: x.mul(at_most_one(one.add(self.pan))),
        }
    }

    pub(crate) fn param(&self, p: Param) -> Value
        requires { IsSome (pan_parameter p self.now) }
        ensures { Some (meant result) ≡ pan_parameter p self.now }
    {
        match p {
            Param::Pan => Value::Float(self.pan),
            _ => unreachable!(),
        }
    }

    pub(crate) fn set(&mut self, p: Param, v: Value)
        requires { IsSome (with_pan_parameter p (meant v) self.old) }
        ensures { Some self.new ≡ with_pan_parameter p (meant v) self.old }
    {
        match (p, v) {
            (Param::Pan, Value::Float(x)) => self.pan = within_sides(x),
            _ => unreachable!(),
        }
    }
}

/// 1, where the number is more.
fn at_most_one(x: Fix) -> Fix
    ensures { result ≡ int_min one x }
{
    Fix::from_raw(x.raw().min(ONE))
}

/// The nearest number from -1 to 1.
fn within_sides(x: Fix) -> Fix
    ensures { result ≡ within_sides x }
{
    Fix::from_raw(x.raw().min(ONE).max(-ONE))
}
