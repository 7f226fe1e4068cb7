ghost use Rattle.std.specs.Prelude.{◌≡◌};
ghost use Rattle.fixed_point.specs.Wanting.{out_of_memory};

use fixed_point::Memory;

/// Why bytes were not read as a wave.
#[derive(Clone, Copy, Debug, PartialEq, Eq)]
pub enum WaveFault {
    /// The bytes are no wave, and the first of them that cannot be read, counted from 0, is `at`: 0
    /// where the file doesn't begin as a RIFF WAVE file does, else where the chunk begins that cannot
    /// stand there, or the length of the file where no chunk `data` comes.
    Wave { at: u32 },
    /// There was not enough memory for the frames.
    Memory(Memory),
}

impl From<Memory> for WaveFault {
    ghost use Rattle.sample_buf.specs.declared.fault.WaveFault.{WaveFault};

    ghost from_gives = { λ _ e. e ≡ WaveFault.Memory out_of_memory };

    fn from(memory: Memory) -> Self {
        WaveFault::Memory(memory)
    }
}
