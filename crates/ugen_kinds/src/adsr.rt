//! An envelope of four stages.
ghost use Rattle.std.specs.Prelude.{◌≡◌, IsSome, Some};
ghost use Rattle.ck_values.specs.Datum.{meant};
ghost use Rattle.ugen_kinds.specs.Adsr.{first_adsr};
ghost use Rattle.ugen_kinds.specs.Adsr.{adsr_tick, adsr_keyed, adsr_parameter, with_stages};
ghost use Rattle.ugen_kinds.specs.Adsr.{entering, past, stage_number};

use crate::choices::Stage;
use crate::ramp::Ramp;
use ck_values::Value;
use fixed_point::Fix;
use ugen_names::Param;

/// What an ADSR keeps: its ramp, where it stands, how many samples the ramps of its attack, decay
/// and release take, and the level that it sustains.
#[derive(Drop)]
pub struct Adsr {
    ramp: Ramp,
    stage: Stage,
    attack: i64,
    decay: i64,
    sustain: Fix,
    release: i64,
}

impl Adsr {
    /// As it is made.
    pub(crate) fn new() -> Adsr
        ensures { result ≡ first_adsr }
    {
        Adsr {
            ramp: Ramp::new(),
            stage: Stage::Done,
            attack: 441,
            decay: 441,
            sustain: Fix::from_raw(1 << 31),
            release: 441,
        }
    }

    /// One tick with this input.
    #[inline(always)]
    pub(crate) fn tick(&mut self, x: Fix) -> Fix
        ensures { (self.new, result) ≡ adsr_tick self.old x }
    {
        let is_last = self.ramp.is_last();
        self.ramp.tick();
        let y = x.mul(self.ramp.value);
        if is_last {
            self.pass();
        }
        y
    }

    /// Goes on to the stage that a ramp leads to which has ended.
    fn pass(&mut self)
        ensures { self.new ≡ past self.old.stage self.old }
    {
        match self.stage {
            Stage::Attack => self.enter(Stage::Decay, self.sustain, self.decay),
            Stage::Decay => self.stage = Stage::Sustain,
            Stage::Release => self.stage = Stage::Done,
            Stage::Sustain | Stage::Done => {}
        }
    }

    /// Begins a stage, whose ramp goes to a target in so many samples.
    fn enter(&mut self, stage: Stage, target: Fix, samples: i64)
        ensures { self.new ≡ entering stage target samples self.old }
    {
        self.stage = stage;
        self.ramp.begin(target, samples);
    }

    /// A key is pressed or let go.
    pub(crate) fn key(&mut self, on: bool)
        ensures { self.new ≡ adsr_keyed on self.old }
    {
        if on {
            self.enter(Stage::Attack, Fix::from_raw(1 << 32), self.attack);
        } else {
            self.enter(Stage::Release, Fix::from_raw(0), self.release);
        }
    }

    /// Sets the samples of its ramps, and the level that it sustains, of ramps that begin later.
    pub(crate) fn set_stages(&mut self, attack: i64, decay: i64, sustain: Fix, release: i64)
        ensures { self.new ≡ with_stages attack decay sustain release self.old }
    {
        self.attack = attack;
        self.decay = decay;
        self.sustain = sustain;
        self.release = release;
    }

    /// The value of a parameter that an ADSR has.
    pub(crate) fn param(&self, p: Param) -> Value
        requires { IsSome (adsr_parameter p self.now) }
        ensures { Some (meant result) ≡ adsr_parameter p self.now }
    {
        match p {
            Param::Value => Value::Float(self.ramp.value),
            Param::State => Value::Int(stage_number(self.stage)),
            _ => unreachable!(),
        }
    }
}

/// The number of a stage, from 0 to 4.
fn stage_number(stage: Stage) -> i64
    ensures { result ≡ stage_number stage }
{
    match stage {
        Stage::Attack => 0,
        Stage::Decay => 1,
        Stage::Sustain => 2,
        Stage::Release => 3,
        Stage::Done => 4,
    }
}
