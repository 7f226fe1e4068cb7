use fixed_point::Memory;

/// The form of an oscillator's wave.
#[derive(Clone, Copy, PartialEq, Eq)]
pub enum WaveForm {
    Sine,
    Saw,
    Triangle,
    Square,
    Pulse,
    /// The phase itself.
    Ramp,
}

/// What the source of an oscillator is for, its parameter `sync`.
#[derive(Clone, Copy, PartialEq, Eq)]
pub enum Sync {
    /// The number 0: it is the frequency.
    Frequency,
    /// The number 1: it is the phase.
    Phase,
    /// The number 2: it is added to the frequency.
    Modulation,
}

/// Where an ADSR envelope stands, its parameter `state`: the numbers 0 to 4 in this order.
#[derive(Clone, Copy, PartialEq, Eq)]
pub enum Stage {
    Attack,
    Decay,
    Sustain,
    Release,
    Done,
}

/// Why a parameter isn't set.
#[derive(Clone, Copy, PartialEq, Eq)]
pub enum SetEnd {
    /// A delay line can't hold back so many samples: at least 1 and at most 1,048,576, of which it
    /// is read from 0 to as many back.
    DelayLimit,
    /// There was not enough memory for a new line.
    Memory(Memory),
}
