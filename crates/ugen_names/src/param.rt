//! The parameters of unit generators, what their values are, and their names.
ghost use Rattle.std.specs.Prelude.{◌≡◌};
ghost use Rattle.ugen_names.specs.ParameterNames.{parameter_name};

/// The parameters of unit generators. Every kind has `gain`, `op` and `last`.
#[derive(Clone, Copy, PartialEq, Eq)]
pub enum Param {
    Gain,
    Op,
    Last,
    Freq,
    Phase,
    Sync,
    Width,
    Next,
    Duration,
    Value,
    Target,
    State,
    Max,
    Delay,
    Frac,
    Mix,
    Pole,
    Zero,
    A1,
    A2,
    B0,
    B1,
    B2,
    /// Of `Pan2`.
    Pan,
    /// Of `SndBuf`, and so are those after it.
    Read,
    Pos,
    Rate,
    Loop,
    Samples,
}

/// What the values of a parameter are.
#[derive(Clone, Copy, PartialEq, Eq)]
pub enum ParamType {
    Int,
    Float,
    Dur,
    /// A string.
    Text,
}

/// The name of a parameter, as the language spells it.
pub fn parameter_name(parameter: Param) -> &'static [u8]
    ensures { result.now ≡ parameter_name parameter }
{
    match parameter {
        Param::Gain => b"gain",
        Param::Op => b"op",
        Param::Last => b"last",
        Param::Freq => b"freq",
        Param::Phase => b"phase",
        Param::Sync => b"sync",
        Param::Width => b"width",
        Param::Next => b"next",
        Param::Duration => b"duration",
        Param::Value => b"value",
        Param::Target => b"target",
        Param::State => b"state",
        Param::Max => b"max",
        Param::Delay => b"delay",
        Param::Frac => b"frac",
        Param::Mix => b"mix",
        Param::Pole => b"pole",
        Param::Zero => b"zero",
        Param::A1 => b"a1",
        Param::A2 => b"a2",
        Param::B0 => b"b0",
        Param::B1 => b"b1",
        Param::B2 => b"b2",
        Param::Pan => b"pan",
        Param::Read => b"read",
        Param::Pos => b"pos",
        Param::Rate => b"rate",
        Param::Loop => b"loop",
        Param::Samples => b"samples",
    }
}
