//! The table of unit generators.

use crate::param::Param::{
    A1, A2, B0, B1, B2, Delay as Delayed, Duration, Frac, Freq, Gain as Loudness, Last, Max, Mix,
    Next, Op, Phase, Pole, State, Sync, Target, Value, Width, Zero,
};
use crate::param::ParamType::{Dur, Float, Int};
use crate::param::{Param, ParamType};
use crate::table::UgenKind::{
    Adsr, BiQuad, Delay, DelayL, Echo, Envelope, Gain, Impulse, Noise, OnePole, OneZero, Phasor,
    PulseOsc, SawOsc, SinOsc, SqrOsc, Step, TriOsc, UGen,
};

/// The kinds of unit generators. A kind without a row in [`UGENS`] is no type of the language, and none
/// of it is made.
#[derive(Clone, Copy, PartialEq, Eq)]
pub enum UgenKind {
    /// The type that every unit generator fits. No object of it is made.
    UGen,
    /// The output of the run. There is one.
    Dac,
    /// What pulls without being heard. There is one.
    Blackhole,
    Gain,
    SinOsc,
    SawOsc,
    TriOsc,
    SqrOsc,
    PulseOsc,
    Phasor,
    Impulse,
    Step,
    Noise,
    Envelope,
    Adsr,
    Delay,
    DelayL,
    Echo,
    OnePole,
    OneZero,
    BiQuad,
    /// Spread between left and right. The language doesn't have it yet: it has a name and no row.
    Pan2,
    /// The samples of a sound file. The language doesn't have it yet: it has a name and no row.
    SndBuf,
}

/// A parameter of a unit generator: which it is, the type of its values, what it reads of one as it
/// is made (of a `float` the raw number, of a `dur` the samples), and whether it can't be set.
pub type Parameter = (Param, ParamType, i64, bool);

/// A kind, its name in the language, and the parameters that it has beside those of every kind.
pub type Row = (UgenKind, &'static [u8], &'static [Parameter]);

/// The raw number of 1.0.
const ONE: i64 = 1 << 32;

/// What every kind has.
pub static COMMON: &[Parameter] = &[
    (Loudness, Float, ONE, false),
    (Op, Int, 1, false),
    (Last, Float, 0, true),
];

/// What an oscillator with a phase has; a pulse has its width beside.
const WAVE: &[Parameter] = &[
    (Freq, Float, 220 * ONE, false),
    (Phase, Float, 0, false),
    (Sync, Int, 0, false),
];

/// One row for each kind that is a type of the language. The definition is this table.
pub static UGENS: &[Row] = &[
    (UGen, b"UGen", &[]),
    (Gain, b"Gain", &[]),
    (SinOsc, b"SinOsc", WAVE),
    (SawOsc, b"SawOsc", WAVE),
    (TriOsc, b"TriOsc", WAVE),
    (SqrOsc, b"SqrOsc", WAVE),
    (
        PulseOsc,
        b"PulseOsc",
        &[
            (Freq, Float, 220 * ONE, false),
            (Phase, Float, 0, false),
            (Sync, Int, 0, false),
            (Width, Float, ONE / 2, false),
        ],
    ),
    (Phasor, b"Phasor", WAVE),
    (Impulse, b"Impulse", &[(Next, Float, 0, false)]),
    (Step, b"Step", &[(Next, Float, ONE, false)]),
    (Noise, b"Noise", &[]),
    (
        Envelope,
        b"Envelope",
        &[
            (Duration, Dur, 441, false),
            (Value, Float, 0, false),
            (Target, Float, 0, false),
        ],
    ),
    (
        Adsr,
        b"ADSR",
        &[(Value, Float, 0, true), (State, Int, 4, true)],
    ),
    (
        Delay,
        b"Delay",
        &[(Max, Dur, 4_095, false), (Delayed, Dur, 0, false)],
    ),
    (
        DelayL,
        b"DelayL",
        &[
            (Max, Dur, 4_095, false),
            (Delayed, Dur, 0, false),
            (Frac, Float, 0, false),
        ],
    ),
    (
        Echo,
        b"Echo",
        &[
            (Max, Dur, 4_095, false),
            (Delayed, Dur, 0, false),
            (Mix, Float, ONE / 2, false),
        ],
    ),
    (
        OnePole,
        b"OnePole",
        &[
            (Pole, Float, 3_865_470_567, false),
            (B0, Float, 429_496_729, false),
            (A1, Float, -3_865_470_567, false),
        ],
    ),
    (
        OneZero,
        b"OneZero",
        &[
            (Zero, Float, -ONE, false),
            (B0, Float, ONE / 2, false),
            (B1, Float, ONE / 2, false),
        ],
    ),
    (
        BiQuad,
        b"BiQuad",
        &[
            (B0, Float, ONE, false),
            (B1, Float, 0, false),
            (B2, Float, 0, false),
            (A1, Float, 0, false),
            (A2, Float, 0, false),
        ],
    ),
];
