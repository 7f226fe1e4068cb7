//! A wave at its phase.
ghost use Rattle.std.specs.Prelude.{◌≡◌, neg_ℤ, IsSome, Some, if◌then◌else◌};
ghost use Rattle.fixed_point.specs.Fix.{one};
ghost use Rattle.ck_values.specs.Datum.{meant};
ghost use Rattle.ugen_kinds.specs.Wave.{first_wave};
ghost use Rattle.ugen_kinds.specs.Wave.{wave_tick, goes_on, height};
ghost use Rattle.ugen_kinds.specs.Wave.{wave_parameter, with_wave_parameter};
ghost use Rattle.ugen_kinds.specs.Wave.{sync_number, sync_of};

use crate::choices::{Sync, WaveForm};
use crate::frequency::Frequency;
use ck_values::Value;
use fixed_point::{Fix, phase_of, sine};
use ugen_names::Param;

/// The raw number of 1.0, and the phases of a turn.
const ONE: i64 = 1 << 32;

/// The phases of half a turn.
const HALF_TURN: u32 = 1 << 31;

/// What an oscillator keeps: its frequency in turns a second, its phase, of which a turn has 2^32,
/// and the part of a turn for which a pulse is above 0.
#[derive(Drop)]
pub struct Wave {
    pub(crate) form: WaveForm,
    frequency: Frequency,
    phase: u32,
    sync: Sync,
    width: Fix,
}

impl Wave {
    /// Of this form, as it is made.
    pub(crate) fn new(form: WaveForm) -> Wave
        ensures { result ≡ first_wave form }
    {
        Wave {
            form,
            frequency: Frequency::new(Fix::from_raw(220 * ONE)),
            phase: 0,
            sync: Sync::Frequency,
            width: Fix::from_raw(ONE / 2),
        }
    }

    /// One tick with this input, which is 0 where there is no source.
    #[inline(always)]
    pub(crate) fn tick(&mut self, x: Fix, fed: bool) -> Fix
        ensures { (self.new, result) ≡ wave_tick self.old x fed }
    {
        let frequency = match self.sync {
            Sync::Modulation => Frequency::new(self.frequency.turns().add(x)),
            Sync::Phase if fed => {
                self.phase = phase_of(x.raw());
                return height(self.form, self.width, self.phase);
            }
            Sync::Frequency | Sync::Phase => {
                if fed {
                    self.frequency = Frequency::new(x);
                }
                self.frequency
            }
        };
        self.go_on(frequency)
    }

    /// The output at the phase, which then goes on by a step at this frequency.
    #[inline(always)]
    fn go_on(&mut self, frequency: Frequency) -> Fix
        ensures { (self.new, result) ≡ goes_on frequency self.old }
    {
        let y = height(self.form, self.width, self.phase);
        self.phase = self.phase.wrapping_add(frequency.step());
        y
    }

    /// The value of a parameter that the wave has.
    pub(crate) fn param(&self, p: Param) -> Value
        requires { IsSome (wave_parameter p self.now) }
        ensures { Some (meant result) ≡ wave_parameter p self.now }
    {
        match p {
            Param::Freq => Value::Float(self.frequency.turns()),
            Param::Phase => Value::Float(Fix::from_raw(i64::from(self.phase))),
            Param::Sync => Value::Int(sync_number(self.sync)),
            Param::Width => Value::Float(self.width),
            _ => unreachable!(),
        }
    }

    /// Sets a parameter that the wave has to a value of its kind.
    pub(crate) fn set(&mut self, p: Param, v: Value)
        requires { IsSome (with_wave_parameter p (meant v) self.old) }
        ensures { Some (self.new) ≡ with_wave_parameter p (meant v) self.old }
    {
        match (p, v) {
            (Param::Freq, Value::Float(x)) => self.frequency = Frequency::new(x),
            (Param::Phase, Value::Float(x)) => self.phase = phase_of(x.raw()),
            (Param::Sync, Value::Int(n)) => self.sync = sync_of(n, self.sync),
            (Param::Width, Value::Float(x)) => self.width = x,
            _ => unreachable!(),
        }
    }
}

/// The wave's output at a phase.
#[tactic(auto, unfolding(crate::specs::Wave::height))]
fn height(form: WaveForm, width: Fix, phase: u32) -> Fix
    ensures { result ≡ height form width phase }
{
    let at = i64::from(phase);
    match form {
        WaveForm::Sine => sine(phase),
        WaveForm::Saw => Fix::from_raw(2 * at - ONE),
        WaveForm::Triangle if phase < HALF_TURN => Fix::from_raw(4 * at - ONE),
        WaveForm::Triangle => Fix::from_raw(3 * ONE - 4 * at),
        WaveForm::Square => high_or_low(phase < HALF_TURN),
        WaveForm::Pulse => high_or_low(at < width.raw()),
        WaveForm::Ramp => Fix::from_raw(at),
    }
}

/// 1.0 or -1.0.
fn high_or_low(is_high: bool) -> Fix
    ensures { result ≡ (if is_high then one else neg_ℤ one) }
{
    Fix::from_raw(if is_high { ONE } else { -ONE })
}

/// The number of what a source is for, from 0 to 2.
fn sync_number(sync: Sync) -> i64
    ensures { result ≡ sync_number sync }
{
    match sync {
        Sync::Frequency => 0,
        Sync::Phase => 1,
        Sync::Modulation => 2,
    }
}

/// What a source is for by this number, or what it was for where the number isn't one from 0 to 2.
fn sync_of(n: i64, before: Sync) -> Sync
    ensures { result ≡ sync_of n before }
{
    match n {
        0 => Sync::Frequency,
        1 => Sync::Phase,
        2 => Sync::Modulation,
        _ => before,
    }
}
