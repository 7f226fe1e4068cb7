ghost use Rattle.std.specs.Prelude.{◌≡◌, ◌↔◌, IsTrue, IsSome, Some, OnOk, OnErr, IfOk, IfErr};
ghost use Rattle.fixed_point.specs.Wanting.{out_of_memory};
ghost use Rattle.ck_values.specs.Datum.{meant};
ghost use Rattle.ugen_names.specs.declared.param.Param.TheVariants.{Max};
ghost use Rattle.ugen_kinds.specs.declared.choices.SetEnd.TheVariants as end;
ghost use Rattle.ugen_kinds.specs.Line.{is_past_line};
ghost use Rattle.ugen_kinds.specs.Echo.{first_echo, echo_tick, mixed, with_mix};
ghost use Rattle.ugen_kinds.specs.Echo.{echo_parameter, with_echo_parameter};

use crate::choices::SetEnd;
use crate::line::{Line, up_to};
use ck_values::Value;
use fixed_point::{Fix, Memory};
use std::alloc::Global;
use ugen_names::Param;

/// The raw number of 1.0.
const ONE: i64 = 1 << 32;

/// What an Echo keeps: its line, and the share of the delayed.
#[derive(Drop)]
pub struct Echo {
    line: Line,
    mix: Fix,
}

impl Echo {
    /// As it is made.
    pub(crate) fn new(alloc: Global) -> Result<Echo, Memory>
        ensures { IfOk result (λ e. e ≡ first_echo) }
    {
        Ok(Echo {
            line: Line::new(alloc)?,
            mix: Fix::from_raw(ONE / 2),
        })
    }

    /// One tick with this input.
    pub(crate) fn tick(&mut self, x: Fix) -> Fix
        ensures { (self.new, result) ≡ echo_tick self.old x }
    {
        let delayed = self.line.tick(x);
        joined(self.mix, x, delayed)
    }

    /// The value of a parameter that an Echo has.
    pub(crate) fn param(&self, p: Param) -> Value
        requires { IsSome (echo_parameter p self.now) }
        ensures { Some (meant result) ≡ echo_parameter p self.now }
    {
        match p {
            Param::Mix => Value::Float(self.mix),
            _ => self.line.param(p),
        }
    }

    /// Sets a parameter that an Echo has to a value of its kind.
    pub(crate) fn set(&mut self, alloc: Global, p: Param, v: Value) -> Result<(), SetEnd>
        requires { IsSome (with_echo_parameter p (meant v) self.old) }
        ensures limit { (result ≡ Err end.DelayLimit)
            ↔ IsTrue (is_past_line p (meant v) self.old.line) }
        ensures memory { IfErr result (λ e. e ≡ end.Memory out_of_memory → p ≡ Max) }
        ensures ok { OnOk result (Some self.new
            ≡ with_echo_parameter p (meant v) self.old) }
        ensures same { OnErr result (self.new ≡ self.old) }
    {
        match (p, v) {
            (Param::Mix, Value::Float(x)) => {
                self.set_mix(x);
                Ok(())
            }
            (p, v) => self.line.set(alloc, p, v),
        }
    }

    /// The nearest share from 0 to 1.
    fn set_mix(&mut self, x: Fix)
        ensures { self.new ≡ with_mix x self.old }
    {
        self.mix = up_to(Fix::from_raw(ONE), x);
    }
}

/// The input less its share, and the share of the delayed.
fn joined(mix: Fix, x: Fix, delayed: Fix) -> Fix
    ensures { result ≡ mixed mix x delayed }
{
    x.sub(x.mul(mix)).add(delayed.mul(mix))
}
