ghost use Rattle.std.specs.Prelude.{◌≡◌, IsSome, Some};
ghost use Rattle.fixed_point.specs.Fix.{one, sum_of, quotient_of, magnitude_of};
ghost use Rattle.ck_values.specs.Datum.{meant};
ghost use Rattle.ugen_kinds.specs.OneZero.{first_one_zero, with_zero, one_zero_tick};
ghost use Rattle.ugen_kinds.specs.OneZero.{one_zero_parameter, with_one_zero_parameter};

use ck_values::Value;
use fixed_point::Fix;
use ugen_names::Param;

/// The raw number of 1.0.
const ONE: i64 = 1 << 32;

/// A filter with one zero: the coefficients of its input (b0) and of the one before (b1), and that
/// input. Each product is floored, and each sum is clamped.
#[derive(Drop)]
pub struct OneZero {
    zero_at: Fix,
    b0: Fix,
    b1: Fix,
    x1: Fix,
}

impl OneZero {
    /// With a zero at -1.
    #[tactic(auto, unfolding(crate::specs::OneZero::first_one_zero))]
    pub(crate) fn new() -> OneZero
        ensures { result ≡ first_one_zero }
    {
        let zero = Fix::from_raw(0);
        let mut filter = OneZero {
            zero_at: zero,
            b0: zero,
            b1: zero,
            x1: zero,
        };
        filter.set_zero(Fix::from_raw(-ONE));
        filter
    }

    /// Sets the zero, with a greatest gain of 1.
    fn set_zero(&mut self, z: Fix)
        ensures { self.new ≡ with_zero z self.old }
    {
        let b0 = share_beside(z);
        self.zero_at = z;
        self.b0 = b0;
        self.b1 = z.mul(b0).neg();
    }

    /// One tick with this input.
    #[inline(always)]
    pub(crate) fn tick(&mut self, x: Fix) -> Fix
        ensures { (self.new, result) ≡ one_zero_tick self.old x }
    {
        let y = self.b0.mul(x).add(self.b1.mul(self.x1));
        self.x1 = x;
        y
    }

    /// The value of a parameter that a OneZero has.
    pub(crate) fn param(&self, p: Param) -> Value
        requires { IsSome (one_zero_parameter p self.now) }
        ensures { Some (meant result) ≡ one_zero_parameter p self.now }
    {
        match p {
            Param::Zero => Value::Float(self.zero_at),
            Param::B0 => Value::Float(self.b0),
            Param::B1 => Value::Float(self.b1),
            _ => unreachable!(),
        }
    }

    /// Sets a parameter that a OneZero has to a float.
    pub(crate) fn set(&mut self, p: Param, v: Value)
        requires { IsSome (with_one_zero_parameter p (meant v) self.old) }
        ensures { Some self.new
            ≡ with_one_zero_parameter p (meant v) self.old }
    {
        match (p, v) {
            (Param::Zero, Value::Float(x)) => self.set_zero(x),
            (Param::B0, Value::Float(x)) => self.b0 = x,
            (Param::B1, Value::Float(x)) => self.b1 = x,
            _ => unreachable!(),
        }
    }
}

/// The share of an input beside one before it that has the part `z` of it.
#[tactic(auto, unfolding(fixed_point::specs::Fix::nearest_in_range))]
fn share_beside(z: Fix) -> Fix
    ensures { result ≡ quotient_of one (sum_of one (magnitude_of z)) }
{
    let one = Fix::from_raw(ONE);
    match one.div(one.add(z.abs())) {
        Some(share) => share,
        None => unreachable!(),
    }
}
