ghost use Rattle.std.specs.Prelude.{◌≡◌, IsSome, Some};
ghost use Rattle.ck_values.specs.Datum.{meant};
ghost use Rattle.ugen_kinds.specs.Step.{first_step, step_parameter, with_step_parameter};

use ck_values::Value;
use fixed_point::Fix;
use ugen_names::Param;

/// A number that comes at each tick.
#[derive(Drop)]
pub struct Step {
    pub(crate) next: Fix,
}

impl Step {
    /// With a number of 1.
    pub(crate) fn new() -> Step
        ensures { result ≡ first_step }
    {
        Step {
            next: Fix::from_raw(1 << 32),
        }
    }

    pub(crate) fn param(&self, p: Param) -> Value
        requires { IsSome (step_parameter p self.now) }
        ensures { Some (meant result) ≡ step_parameter p self.now }
    {
        match p {
            Param::Next => Value::Float(self.next),
            _ => unreachable!(),
        }
    }

    pub(crate) fn set(&mut self, p: Param, v: Value)
        requires { IsSome (with_step_parameter p (meant v) self.old) }
        ensures { Some self.new ≡ with_step_parameter p (meant v) self.old }
    {
        match (p, v) {
            (Param::Next, Value::Float(x)) => self.next = x,
            _ => unreachable!(),
        }
    }
}
