ghost use Rattle.std.specs.Prelude.{◌≡◌, IsSome, Some};
ghost use Rattle.ck_values.specs.Datum.{meant};
ghost use Rattle.ugen_kinds.specs.OnePole.{first_one_pole, with_pole, one_pole_tick};
ghost use Rattle.ugen_kinds.specs.OnePole.{one_pole_parameter, with_one_pole_parameter};

use ck_values::Value;
use fixed_point::Fix;
use ugen_names::Param;

/// A filter with one pole: the coefficients of its input (b0) and of its last output (a1), and that
/// output.
#[derive(Drop)]
pub struct OnePole {
    pole: Fix,
    b0: Fix,
    a1: Fix,
    y1: Fix,
}

impl OnePole {
    /// With a pole at 0.9.
    #[tactic(auto, unfolding(crate::specs::OnePole::first_one_pole))]
    pub(crate) fn new() -> OnePole
        ensures { result ≡ first_one_pole }
    {
        let zero = Fix::from_raw(0);
        let mut filter = OnePole {
            pole: zero,
            b0: zero,
            a1: zero,
            y1: zero,
        };
        filter.set_pole(Fix::from_raw(3_865_470_567));
        filter
    }

    /// Sets the pole, with a gain of 1 at no frequency.
    fn set_pole(&mut self, pole: Fix)
        ensures { self.new ≡ with_pole pole self.old }
    {
        self.pole = pole;
        self.b0 = Fix::from_raw(1 << 32).sub(pole.abs());
        self.a1 = pole.neg();
    }

    #[inline(always)]
    pub(crate) fn tick(&mut self, x: Fix) -> Fix
        ensures { (self.new, result) ≡ one_pole_tick self.old x }
    {
        let y = self.b0.mul(x).sub(self.a1.mul(self.y1));
        self.y1 = y;
        y
    }

    pub(crate) fn param(&self, p: Param) -> Value
        requires { IsSome (one_pole_parameter p self.now) }
        ensures { Some (meant result) ≡ one_pole_parameter p self.now }
    {
        match p {
            Param::Pole => Value::Float(self.pole),
            Param::B0 => Value::Float(self.b0),
            Param::A1 => Value::Float(self.a1),
            _ => unreachable!(),
        }
    }

    pub(crate) fn set(&mut self, p: Param, v: Value)
        requires { IsSome (with_one_pole_parameter p (meant v) self.old) }
        ensures { Some self.new ≡ with_one_pole_parameter p (meant v) self.old }
    {
        match (p, v) {
            (Param::Pole, Value::Float(x)) => self.set_pole(x),
            (Param::B0, Value::Float(x)) => self.b0 = x,
            (Param::A1, Value::Float(x)) => self.a1 = x,
            _ => unreachable!(),
        }
    }
}
