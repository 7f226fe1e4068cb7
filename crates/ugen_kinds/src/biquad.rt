ghost use Rattle.std.specs.Prelude.{◌≡◌, IsSome, Some};
ghost use Rattle.ck_values.specs.Datum.{meant};
ghost use Rattle.ugen_kinds.specs.BiQuad.{first_biquad, biquad_tick, biquad_inputs, biquad_output};
ghost use Rattle.ugen_kinds.specs.BiQuad.{biquad_parameter, with_biquad_parameter};

use ck_values::Value;
use fixed_point::Fix;
use ugen_names::Param;

/// A filter of the second order: the coefficients of inputs (b) and of outputs (a), and the inputs
/// (x) and outputs (y) of one tick and of two ticks ago. Each product is floored, and each sum is
/// clamped.
#[derive(Drop)]
pub struct BiQuad {
    b0: Fix,
    b1: Fix,
    b2: Fix,
    a1: Fix,
    a2: Fix,
    x1: Fix,
    x2: Fix,
    y1: Fix,
    y2: Fix,
}

impl BiQuad {
    /// It gives its input.
    pub(crate) fn new() -> BiQuad
        ensures { result ≡ first_biquad }
    {
        let zero = Fix::from_raw(0);
        BiQuad {
            b0: Fix::from_raw(1 << 32),
            b1: zero,
            b2: zero,
            a1: zero,
            a2: zero,
            x1: zero,
            x2: zero,
            y1: zero,
            y2: zero,
        }
    }

    /// One tick with this input.
    pub(crate) fn tick(&mut self, x: Fix) -> Fix
        ensures { (self.new, result) ≡ biquad_tick self.old x }
    {
        let y = self.output(x);
        self.x2 = self.x1;
        self.x1 = x;
        self.y2 = self.y1;
        self.y1 = y;
        y
    }

    /// The output at this input.
    fn output(&self, x: Fix) -> Fix
        ensures { result ≡ biquad_output self.now x }
    {
        let outputs_1 = self.a1.mul(self.y1);
        let outputs_2 = self.a2.mul(self.y2);
        self.inputs(x).sub(outputs_1).sub(outputs_2)
    }

    /// The share of the inputs in an output.
    fn inputs(&self, x: Fix) -> Fix
        ensures { result ≡ biquad_inputs self.now x }
    {
        let before = self.b1.mul(self.x1);
        let before_that = self.b2.mul(self.x2);
        self.b0.mul(x).add(before).add(before_that)
    }

    /// The value of a parameter that a BiQuad has.
    pub(crate) fn param(&self, p: Param) -> Value
        requires { IsSome (biquad_parameter p self.now) }
        ensures { Some (meant result) ≡ biquad_parameter p self.now }
    {
        match p {
            Param::B0 => Value::Float(self.b0),
            Param::B1 => Value::Float(self.b1),
            Param::B2 => Value::Float(self.b2),
            Param::A1 => Value::Float(self.a1),
            Param::A2 => Value::Float(self.a2),
            _ => unreachable!(),
        }
    }

    /// Sets a parameter that a BiQuad has to a float.
    pub(crate) fn set(&mut self, p: Param, v: Value)
        requires { IsSome (with_biquad_parameter p (meant v) self.old) }
        ensures { Some self.new
            ≡ with_biquad_parameter p (meant v) self.old }
    {
        match (p, v) {
            (Param::B0, Value::Float(x)) => self.b0 = x,
            (Param::B1, Value::Float(x)) => self.b1 = x,
            (Param::B2, Value::Float(x)) => self.b2 = x,
            (Param::A1, Value::Float(x)) => self.a1 = x,
            (Param::A2, Value::Float(x)) => self.a2 = x,
            _ => unreachable!(),
        }
    }
}
