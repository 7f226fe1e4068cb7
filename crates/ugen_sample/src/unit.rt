ghost use Rattle.std.specs.Prelude.{◌≡◌, ◌↔◌, IsTrue, IsSome, Some, OnOk, OnErr, IfErr, IfSome, pos};
ghost use Rattle.fixed_point.specs.Wanting.{out_of_memory};
ghost use Rattle.fixed_point.specs.Fix.{one, product_of};
ghost use Rattle.ck_values.specs.Datum.{meant};
ghost use Rattle.ugen_names.specs.declared.param.Param.TheVariants.{Max};
ghost use Rattle.ugen_kinds.specs.declared.choices.SetEnd.TheVariants as end;
ghost use Rattle.ugen_kinds.specs.Generator.{first_of, is_past_limit, keyed, staged};
ghost use Rattle.ugen_kinds.specs.SoundFile.{no_waves};
ghost use Rattle.ugen_kinds.specs.Output.{at_gain, silence};
ghost use Rattle.ugen_sample.specs.declared.choices.Joining.TheVariants.{Sum};
ghost use Rattle.ugen_sample.specs.Parameters.{unit_parameter, with_unit_parameter};
ghost use Rattle.ugen_sample.specs.Parameters.{joining_number, joining_of};
ghost use Rattle.ugen_sample.specs.Sample.{gives, result_of};
ghost use Rattle.ugen_sample.specs.Still.{IsStill};
ghost use Rattle.std.specs.Bool.{OnTrue};

use crate::choices::Joining;
use ck_values::Value;
use fixed_point::Fix;
use std::alloc::Global;
use ugen_kinds::{Generator, Output, SetEnd};
use ugen_names::Param;

/// The raw number of 1.0.
const FULL: i64 = 1 << 32;

/// A unit generator: the number of the shred that made it, what it keeps by its kind, how it joins
/// its sources, its gain, and the output that it gave last.
#[derive(Drop)]
pub struct UnitState {
    pub maker: u64,
    pub joining: Joining,
    pub gain: Fix,
    pub last: Output,
    pub generator: Generator,
}

impl UnitState {
    /// With a gain of 1, the sum of its sources, and no output yet.
    pub fn new(generator: Generator, maker: u64) -> UnitState
        ensures { result ≡ record {
          maker = maker;
          generator = generator;
          joining = Sum;
          gain = one;
          last = silence;
        } }
    {
        UnitState {
            maker,
            joining: Joining::Sum,
            gain: Fix::from_raw(FULL),
            last: Output::both(Fix::from_raw(0)),
            generator,
        }
    }

    /// Makes its output from its input.
    #[inline(always)] // a call for each node would cost as much as many a tick
    pub fn sound(&mut self, x: Fix, fed: bool)
        ensures { self.new
            ≡ gives self.old (result_of no_waves self.old.joining self.old.generator x fed) }
    {
        if self.joining == Joining::Sum {
            let y = self.generator.tick(x, fed);
            self.give(y);
        } else {
            self.sound_joined(x, fed);
        }
    }

    /// The same, however it joins its sources: mostly it gives their sum to its tick.
    #[cold]
    pub fn sound_joined(&mut self, x: Fix, fed: bool)
        ensures { self.new
            ≡ gives self.old (result_of no_waves self.old.joining self.old.generator x fed) }
    {
        let y = match self.joining {
            Joining::Off => Output::both(Fix::from_raw(0)),
            Joining::Through => Output::both(x),
            Joining::Sum | Joining::Difference | Joining::Product | Joining::Quotient => {
                self.generator.tick(x, fed)
            }
        };
        self.give(y);
    }

    /// Gives this at its gain, as `dac` does of what it hears.
    #[inline(always)]
    pub fn give(&mut self, y: Output)
        ensures { self.new ≡ gives self.old (self.old.generator, y) }
    {
        self.last = at_gain(y, self.gain);
    }

    /// Whether it keeps nothing for itself and gave 0 last: without sources it gives 0 again.
    pub fn is_still(&self) -> bool
        ensures { OnTrue result (IsStill (Some self.now)) }
    {
        match self.generator {
            Generator::Dac | Generator::Blackhole | Generator::Gain => is_silence(self.last),
            _ => false,
        }
    }

    /// The value of a parameter that it has.
    #[tactic(auto, unfolding(crate::specs::Parameters::unit_parameter))]
    pub fn param(&self, p: Param) -> Value
        requires { IsSome (unit_parameter no_waves p self.now) }
        ensures { Some (meant result) ≡ unit_parameter no_waves p self.now }
    {
        match p {
            Param::Gain => Value::Float(self.gain),
            Param::Op => Value::Int(joining_number(self.joining)),
            Param::Last => Value::Float(self.last.mean()),
            _ => self.generator.param(p),
        }
    }

    /// Sets a parameter that it has, to a value of the parameter's type: `op` and `sync` to an int,
    /// where one that names nothing leaves them, `duration`, `max` and `delay` to a dur, and any
    /// other to a float. `DelayLimit` comes exactly where a delay line can't be set so, and else
    /// `Memory` where there is none for the new line of a `max`; all stays as it was then.
    #[tactic(auto, unfolding(crate::specs::Parameters::with_unit_parameter))]
    pub fn set(&mut self, alloc: Global, p: Param, v: Value) -> Result<(), SetEnd>
        requires { IsSome (with_unit_parameter no_waves p (meant v) self.old) }
        ensures limit { (result ≡ Err end.DelayLimit)
            ↔ IsTrue (is_past_limit p (meant v) self.old.generator) }
        ensures memory { IfErr result (λ e. e ≡ end.Memory out_of_memory → p ≡ Max) }
        ensures set { OnOk result (Some self.new ≡ with_unit_parameter no_waves p (meant v) self.old) }
        ensures same { OnErr result (self.new ≡ self.old) }
    {
        match (p, v) {
            (Param::Gain, Value::Float(x)) => self.gain = x,
            (Param::Op, Value::Int(n)) => self.joining = joining_of(n, self.joining),
            (p, v) => return self.generator.set(alloc, p, v),
        }
        Ok(())
    }

    /// A key of an envelope is pressed or let go.
    pub fn key(&mut self, on: bool)
        requires { IsSome (keyed on self.old.generator) }
        ensures { IfSome (keyed on self.old.generator)
            (λ g. self.new ≡ record self.old { generator = g }) }
    {
        self.generator.key(on);
    }

    /// Sets the stages of an ADSR: the samples of its attack, decay and release, and the level
    /// that it sustains, where 1.0 is full.
    pub fn adsr(&mut self, attack: i64, decay: i64, sustain: Fix, release: i64)
        requires { IsSome (staged attack decay sustain release self.old.generator) }
        ensures { IfSome (staged attack decay sustain release self.old.generator)
            (λ g. self.new ≡ record self.old { generator = g }) }
    {
        self.generator.adsr(attack, decay, sustain, release);
    }
}

/// Whether an output is 0 on both sides.
fn is_silence(y: Output) -> bool
    ensures { OnTrue result (y ≡ silence) }
{
    y.left.raw() == 0 && y.right.raw() == 0
}

/// An output at a gain. A gain is made as 1, which leaves the output as it is, and mostly both
/// sides are one number.
#[inline(always)]
fn at_gain(y: Output, gain: Fix) -> Output
    ensures { result ≡ at_gain gain y }
{
    if y.left.raw() == y.right.raw() {
        return Output::both(number_at(y.left, gain));
    }
    sides_at_gain(y, gain)
}

/// The same of two numbers.
#[cold]
fn sides_at_gain(y: Output, gain: Fix) -> Output
    ensures { result ≡ at_gain gain y }
{
    Output {
        left: number_at(y.left, gain),
        right: number_at(y.right, gain),
    }
}

/// A number at a gain.
#[inline(always)]
#[tactic(auto, using(crate::proofs::Gains::full))]
fn number_at(y: Fix, gain: Fix) -> Fix
    ensures { result ≡ product_of y gain }
{
    let raw = y.raw();
    if gain.raw() == FULL {
        Fix::from_raw(raw)
    } else {
        y.mul(gain)
    }
}

/// The number of how sources are joined, from -1 to 4.
fn joining_number(joining: Joining) -> i64
    ensures { result ≡ joining_number joining }
{
    match joining {
        Joining::Through => -1,
        Joining::Off => 0,
        Joining::Sum => 1,
        Joining::Difference => 2,
        Joining::Product => 3,
        Joining::Quotient => 4,
    }
}

/// How sources are joined by this number, or how they were where it isn't one from -1 to 4.
fn joining_of(n: i64, before: Joining) -> Joining
    ensures { result ≡ joining_of n before }
{
    match n {
        -1 => Joining::Through,
        0 => Joining::Off,
        1 => Joining::Sum,
        2 => Joining::Difference,
        3 => Joining::Product,
        4 => Joining::Quotient,
        _ => before,
    }
}
