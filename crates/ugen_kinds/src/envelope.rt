//! An envelope that a key opens and closes.
ghost use Rattle.std.specs.Prelude.{◌≡◌, IsSome, Some};
ghost use Rattle.ck_values.specs.Datum.{meant};
ghost use Rattle.ugen_kinds.specs.Envelope.{first_envelope, envelope_tick, envelope_keyed};
ghost use Rattle.ugen_kinds.specs.Envelope.{towards, key_target};
ghost use Rattle.ugen_kinds.specs.Envelope.{envelope_parameter, with_envelope_parameter};

use crate::ramp::Ramp;
use ck_values::Value;
use fixed_point::Fix;
use ugen_names::Param;

/// What an Envelope keeps: its ramp, and how many samples the next one takes.
#[derive(Drop)]
pub struct Envelope {
    ramp: Ramp,
    duration: i64,
}

impl Envelope {
    /// As it is made.
    pub(crate) fn new() -> Envelope
        ensures { result ≡ first_envelope }
    {
        Envelope {
            ramp: Ramp::new(),
            duration: 441,
        }
    }

    /// One tick with this input.
    #[inline(always)]
    pub(crate) fn tick(&mut self, x: Fix) -> Fix
        ensures { (self.new, result) ≡ envelope_tick self.old x }
    {
        self.ramp.tick();
        x.mul(self.ramp.value)
    }

    /// A key is pressed or let go.
    pub(crate) fn key(&mut self, on: bool)
        ensures { self.new ≡ envelope_keyed on self.old }
    {
        self.go_to(key_target(on));
    }

    /// Begins to go to a target, in its duration.
    fn go_to(&mut self, target: Fix)
        ensures { self.new ≡ towards target self.old }
    {
        self.ramp.begin(target, self.duration);
    }

    /// The value of a parameter that an envelope has.
    pub(crate) fn param(&self, p: Param) -> Value
        requires { IsSome (envelope_parameter p self.now) }
        ensures { Some (meant result) ≡ envelope_parameter p self.now }
    {
        match p {
            Param::Duration => Value::Dur(self.duration),
            Param::Value => Value::Float(self.ramp.value),
            Param::Target => Value::Float(self.ramp.target),
            _ => unreachable!(),
        }
    }

    /// Sets a parameter that an envelope has to a value of its kind.
    pub(crate) fn set(&mut self, p: Param, v: Value)
        requires { IsSome (with_envelope_parameter p (meant v) self.old) }
        ensures { Some self.new
            ≡ with_envelope_parameter p (meant v) self.old }
    {
        match (p, v) {
            (Param::Duration, Value::Dur(samples)) => self.duration = samples,
            (Param::Value, Value::Float(x)) => self.ramp.end_at(x),
            (Param::Target, Value::Float(x)) => self.go_to(x),
            _ => unreachable!(),
        }
    }
}

/// Where a key sends an envelope.
fn key_target(on: bool) -> Fix
    ensures { result ≡ key_target on }
{
    Fix::from_raw(if on { 1 << 32 } else { 0 })
}
