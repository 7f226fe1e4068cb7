ghost use Rattle.std.specs.Prelude.{◌≡◌, ◌↔◌, IsTrue, IsSome, Some, OnOk, OnErr, IfOk, IfErr};
ghost use Rattle.fixed_point.specs.Wanting.{out_of_memory};
ghost use Rattle.ck_values.specs.Datum.{meant};
ghost use Rattle.ugen_names.specs.declared.param.Param.TheVariants.{Max};
ghost use Rattle.ugen_kinds.specs.declared.choices.SetEnd.TheVariants as end;
ghost use Rattle.ugen_kinds.specs.Generator.{wave_kind, kind_of, has_state, first_of, tick_of};
ghost use Rattle.ugen_kinds.specs.Generator.{own_parameter, with_own_parameter, is_past_limit};
ghost use Rattle.ugen_kinds.specs.Generator.{keyed, staged};
ghost use Rattle.ugen_kinds.specs.SoundFile.{no_waves};

use crate::adsr::Adsr;
use crate::biquad::BiQuad;
use crate::choices::{SetEnd, WaveForm};
use crate::delay_l::DelayL;
use crate::echo::Echo;
use crate::envelope::Envelope;
use crate::impulse::Impulse;
use crate::line::Line;
use crate::noise::Noise;
use crate::one_pole::OnePole;
use crate::one_zero::OneZero;
use crate::output::Output;
use crate::pan2::Pan2;
use crate::step::Step;
use crate::wave::Wave;
use ck_values::Value;
use fixed_point::{Fix, Memory};
use std::alloc::Global;
use ugen_names::{Param, UgenKind};

/// What a unit generator keeps from sample to sample, which tells its kind.
#[derive(Drop)]
pub enum Generator {
    Dac,
    Blackhole,
    Gain,
    Wave(Wave),
    Impulse(Impulse),
    Step(Step),
    Noise(Noise),
    Envelope(Envelope),
    Adsr(Adsr),
    Delay(Line),
    DelayL(DelayL),
    Echo(Echo),
    OnePole(OnePole),
    OneZero(OneZero),
    BiQuad(BiQuad),
    Pan2(Pan2),
}

impl Generator {
    /// One of this kind, any but `UGen` and `SndBuf`, as it is made; the number of its object
    /// starts the words of noise. The delay lines take memory.
    pub fn new(alloc: Global, kind: UgenKind, number: u64) -> Result<Generator, Memory>
        requires { IsTrue (has_state kind) }
        ensures { IfOk result (λ g. g ≡ first_of kind number) }
    {
        Ok(match kind {
            UgenKind::Dac => Generator::Dac,
            UgenKind::Blackhole => Generator::Blackhole,
            UgenKind::Gain => Generator::Gain,
            UgenKind::SinOsc => Generator::Wave(Wave::new(WaveForm::Sine)),
            UgenKind::SawOsc => Generator::Wave(Wave::new(WaveForm::Saw)),
            UgenKind::TriOsc => Generator::Wave(Wave::new(WaveForm::Triangle)),
            UgenKind::SqrOsc => Generator::Wave(Wave::new(WaveForm::Square)),
            UgenKind::PulseOsc => Generator::Wave(Wave::new(WaveForm::Pulse)),
            UgenKind::Phasor => Generator::Wave(Wave::new(WaveForm::Ramp)),
            UgenKind::Impulse => Generator::Impulse(Impulse::new()),
            UgenKind::Step => Generator::Step(Step::new()),
            UgenKind::Noise => Generator::Noise(Noise::new(number)),
            UgenKind::Envelope => Generator::Envelope(Envelope::new()),
            UgenKind::Adsr => Generator::Adsr(Adsr::new()),
            UgenKind::Delay => Generator::Delay(Line::new(alloc)?),
            UgenKind::DelayL => Generator::DelayL(DelayL::new(alloc)?),
            UgenKind::Echo => Generator::Echo(Echo::new(alloc)?),
            UgenKind::OnePole => Generator::OnePole(OnePole::new()),
            UgenKind::OneZero => Generator::OneZero(OneZero::new()),
            UgenKind::BiQuad => Generator::BiQuad(BiQuad::new()),
            UgenKind::Pan2 => Generator::Pan2(Pan2::new()),
            UgenKind::UGen | UgenKind::SndBuf => unreachable!(),
        })
    }

    /// Its kind.
    pub fn kind(&self) -> UgenKind
        ensures { result ≡ kind_of self.now }
    {
        match self {
            Generator::Dac => UgenKind::Dac,
            Generator::Blackhole => UgenKind::Blackhole,
            Generator::Gain => UgenKind::Gain,
            Generator::Wave(wave) => wave_kind(wave.form),
            Generator::Impulse(_) => UgenKind::Impulse,
            Generator::Step(_) => UgenKind::Step,
            Generator::Noise(_) => UgenKind::Noise,
            Generator::Envelope(_) => UgenKind::Envelope,
            Generator::Adsr(_) => UgenKind::Adsr,
            Generator::Delay(_) => UgenKind::Delay,
            Generator::DelayL(_) => UgenKind::DelayL,
            Generator::Echo(_) => UgenKind::Echo,
            Generator::OnePole(_) => UgenKind::OnePole,
            Generator::OneZero(_) => UgenKind::OneZero,
            Generator::BiQuad(_) => UgenKind::BiQuad,
            Generator::Pan2(_) => UgenKind::Pan2,
        }
    }

    /// One tick with the input `x`, which is 0 where there is no source; `fed` says whether there
    /// is one. It takes no memory.
    #[inline(always)]
    #[tactic(auto, unfolding(crate::specs::Generator::tick_of))]
    pub fn tick(&mut self, x: Fix, fed: bool) -> Output
        ensures { (self.new, result) ≡ tick_of no_waves self.old x fed }
    {
        match self {
            Generator::Dac | Generator::Blackhole | Generator::Gain => Output::both(x),
            Generator::Wave(wave) => Output::both(wave.tick(x, fed)),
            Generator::Impulse(impulse) => Output::both(impulse.tick()),
            Generator::Step(step) => Output::both(step.next),
            Generator::Noise(noise) => Output::both(noise.tick()),
            Generator::Envelope(envelope) => Output::both(envelope.tick(x)),
            Generator::Adsr(adsr) => Output::both(adsr.tick(x)),
            Generator::Delay(line) => Output::both(line.tick(x)),
            Generator::DelayL(delay) => Output::both(delay.tick(x)),
            Generator::Echo(echo) => Output::both(echo.tick(x)),
            Generator::OnePole(filter) => Output::both(filter.tick(x)),
            Generator::OneZero(filter) => Output::both(filter.tick(x)),
            Generator::BiQuad(filter) => Output::both(filter.tick(x)),
            Generator::Pan2(pan) => pan.sides(x),
        }
    }

    /// The value of a parameter that the kind has of its own.
    #[tactic(auto, unfolding(crate::specs::Generator::own_parameter))]
    pub fn param(&self, p: Param) -> Value
        requires { IsSome (own_parameter no_waves p self.now) }
        ensures { Some (meant result) ≡ own_parameter no_waves p self.now }
    {
        match self {
            Generator::Wave(wave) => wave.param(p),
            Generator::Impulse(impulse) => impulse.param(p),
            Generator::Step(step) => step.param(p),
            Generator::Envelope(envelope) => envelope.param(p),
            Generator::Adsr(adsr) => adsr.param(p),
            Generator::Delay(line) => line.param(p),
            Generator::DelayL(delay) => delay.param(p),
            Generator::Echo(echo) => echo.param(p),
            Generator::OnePole(filter) => filter.param(p),
            Generator::OneZero(filter) => filter.param(p),
            Generator::BiQuad(filter) => filter.param(p),
            Generator::Pan2(pan) => pan.param(p),
            Generator::Dac | Generator::Blackhole | Generator::Gain | Generator::Noise(_) => {
                unreachable!()
            }
        }
    }

    /// Sets such a parameter, if it isn't read only. `DelayLimit` comes exactly where a delay line
    /// can't be set so, and else `Memory` where there is none for the new line of a `max`; all
    /// stays as it was then.
    #[tactic(auto, unfolding(crate::specs::Generator::with_own_parameter))]
    pub fn set(&mut self, alloc: Global, p: Param, v: Value) -> Result<(), SetEnd>
        requires { IsSome (with_own_parameter no_waves p (meant v) self.old) }
        ensures limit { (result ≡ Err end.DelayLimit)
            ↔ IsTrue (is_past_limit p (meant v) self.old) }
        ensures memory { IfErr result (λ e. e ≡ end.Memory out_of_memory → p ≡ Max) }
        ensures set { OnOk result (Some self.new ≡ with_own_parameter no_waves p (meant v) self.old) }
        ensures same { OnErr result (self.new ≡ self.old) }
    {
        match self {
            Generator::Wave(wave) => wave.set(p, v),
            Generator::Impulse(impulse) => impulse.set(p, v),
            Generator::Step(step) => step.set(p, v),
            Generator::Envelope(envelope) => envelope.set(p, v),
            Generator::Delay(line) => return line.set(alloc, p, v),
            Generator::DelayL(delay) => return delay.set(alloc, p, v),
            Generator::Echo(echo) => return echo.set(alloc, p, v),
            Generator::OnePole(filter) => filter.set(p, v),
            Generator::OneZero(filter) => filter.set(p, v),
            Generator::BiQuad(filter) => filter.set(p, v),
            Generator::Pan2(pan) => pan.set(p, v),
            Generator::Dac
            | Generator::Blackhole
            | Generator::Gain
            | Generator::Noise(_)
            | Generator::Adsr(_) => unreachable!(),
        }
        Ok(())
    }

    /// A key of an envelope is pressed or let go.
    #[tactic(auto, unfolding(crate::specs::Generator::keyed))]
    pub fn key(&mut self, on: bool)
        requires { IsSome (keyed on self.old) }
        ensures { Some self.new ≡ keyed on self.old }
    {
        match self {
            Generator::Envelope(envelope) => envelope.key(on),
            Generator::Adsr(adsr) => adsr.key(on),
            _ => unreachable!(),
        }
    }

    /// Sets the stages of an ADSR: the samples of its attack, decay and release, and the level
    /// that it sustains, where 1.0 is full. A ramp that has begun goes on as it did.
    #[tactic(auto, unfolding(crate::specs::Generator::staged))]
    pub fn adsr(&mut self, attack: i64, decay: i64, sustain: Fix, release: i64)
        requires { IsSome (staged attack decay sustain release self.old) }
        ensures { Some self.new ≡ staged attack decay sustain release self.old }
    {
        match self {
            Generator::Adsr(adsr) => adsr.set_stages(attack, decay, sustain, release),
            _ => unreachable!(),
        }
    }
}

/// The kind of a wave of this form.
fn wave_kind(form: WaveForm) -> UgenKind
    ensures { result ≡ wave_kind form }
{
    match form {
        WaveForm::Sine => UgenKind::SinOsc,
        WaveForm::Saw => UgenKind::SawOsc,
        WaveForm::Triangle => UgenKind::TriOsc,
        WaveForm::Square => UgenKind::SqrOsc,
        WaveForm::Pulse => UgenKind::PulseOsc,
        WaveForm::Ramp => UgenKind::Phasor,
    }
}
