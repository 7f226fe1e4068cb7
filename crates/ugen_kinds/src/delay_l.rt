ghost use Rattle.std.specs.Prelude.{◌≡◌, ◌↔◌, IsTrue, IsSome, Some, OnOk, OnErr, IfOk, IfErr};
ghost use Rattle.fixed_point.specs.Wanting.{out_of_memory};
ghost use Rattle.ck_values.specs.Datum.{meant};
ghost use Rattle.ugen_names.specs.declared.param.Param.TheVariants.{Max};
ghost use Rattle.ugen_kinds.specs.declared.choices.SetEnd.TheVariants as end;
ghost use Rattle.ugen_kinds.specs.Line.{is_past_line};
ghost use Rattle.ugen_kinds.specs.DelayL.{first_delay_l, delay_l_tick, between, with_fraction};
ghost use Rattle.ugen_kinds.specs.DelayL.{delay_l_parameter, with_delay_l_parameter};

use crate::choices::SetEnd;
use crate::line::{Line, up_to};
use ck_values::Value;
use fixed_point::{Fix, Memory};
use std::alloc::Global;
use ugen_names::Param;

/// The raw number of 1.0.
const ONE: i64 = 1 << 32;

/// What a DelayL keeps: its line, and the fraction of a sample that is added.
#[derive(Drop)]
pub struct DelayL {
    line: Line,
    fraction: Fix,
}

impl DelayL {
    /// As it is made.
    pub(crate) fn new(alloc: Global) -> Result<DelayL, Memory>
        ensures { IfOk result (λ d. d ≡ first_delay_l) }
    {
        Ok(DelayL {
            line: Line::new(alloc)?,
            fraction: Fix::from_raw(0),
        })
    }

    /// One tick with this input.
    pub(crate) fn tick(&mut self, x: Fix) -> Fix
        ensures { (self.new, result) ≡ delay_l_tick self.old x }
    {
        self.line.push(x);
        part_way(self.fraction, self.line.delayed(), self.line.before())
    }

    /// The value of a parameter that a DelayL has.
    pub(crate) fn param(&self, p: Param) -> Value
        requires { IsSome (delay_l_parameter p self.now) }
        ensures { Some (meant result) ≡ delay_l_parameter p self.now }
    {
        match p {
            Param::Frac => Value::Float(self.fraction),
            _ => self.line.param(p),
        }
    }

    /// Sets a parameter that a DelayL has to a value of its kind.
    pub(crate) fn set(&mut self, alloc: Global, p: Param, v: Value) -> Result<(), SetEnd>
        requires { IsSome (with_delay_l_parameter p (meant v) self.old) }
        ensures limit { (result ≡ Err end.DelayLimit)
            ↔ IsTrue (is_past_line p (meant v) self.old.line) }
        ensures memory { IfErr result (λ e. e ≡ end.Memory out_of_memory → p ≡ Max) }
        ensures ok { OnOk result (Some self.new
            ≡ with_delay_l_parameter p (meant v) self.old) }
        ensures same { OnErr result (self.new ≡ self.old) }
    {
        match (p, v) {
            (Param::Frac, Value::Float(x)) => {
                self.set_fraction(x);
                Ok(())
            }
            (p, v) => self.line.set(alloc, p, v),
        }
    }

    /// The nearest fraction from 0 to below 1.
    fn set_fraction(&mut self, x: Fix)
        ensures { self.new ≡ with_fraction x self.old }
    {
        self.fraction = up_to(Fix::from_raw(ONE - 1), x);
    }
}

/// So much of the way from `a` to `b`.
fn part_way(fraction: Fix, a: Fix, b: Fix) -> Fix
    ensures { result ≡ between fraction a b }
{
    a.add(b.sub(a).mul(fraction))
}
