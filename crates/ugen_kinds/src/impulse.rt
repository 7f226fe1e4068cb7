ghost use Rattle.std.specs.Prelude.{◌≡◌, IsSome, Some};
ghost use Rattle.ck_values.specs.Datum.{meant};
ghost use Rattle.ugen_kinds.specs.Impulse.{first_impulse, impulse_tick};
ghost use Rattle.ugen_kinds.specs.Impulse.{impulse_parameter, with_impulse_parameter};

use ck_values::Value;
use fixed_point::Fix;
use std::mem;
use ugen_names::Param;

/// A number that comes at the next tick, and then no more.
#[derive(Drop)]
pub struct Impulse {
    next: Fix,
}

impl Impulse {
    /// With a number of 0.
    pub(crate) fn new() -> Impulse
        ensures { result ≡ first_impulse }
    {
        Impulse {
            next: Fix::from_raw(0),
        }
    }

    /// One tick.
    pub(crate) fn tick(&mut self) -> Fix
        ensures { (self.new, result) ≡ impulse_tick self.old }
    {
        mem::replace(&mut self.next, Fix::from_raw(0))
    }

    /// The value of a parameter that an Impulse has.
    pub(crate) fn param(&self, p: Param) -> Value
        requires { IsSome (impulse_parameter p self.now) }
        ensures { Some (meant result) ≡ impulse_parameter p self.now }
    {
        match p {
            Param::Next => Value::Float(self.next),
            _ => unreachable!(),
        }
    }

    /// Sets a parameter that an Impulse has to a float.
    pub(crate) fn set(&mut self, p: Param, v: Value)
        requires { IsSome (with_impulse_parameter p (meant v) self.old) }
        ensures { Some self.new ≡ with_impulse_parameter p (meant v) self.old }
    {
        match (p, v) {
            (Param::Next, Value::Float(x)) => self.next = x,
            _ => unreachable!(),
        }
    }
}
