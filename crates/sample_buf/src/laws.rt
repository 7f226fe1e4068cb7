//! Laws of the definitions: what the bytes of a file are is one thing, and what is written is read.

ghost use Rattle.std.specs.Prelude.{◌≡◌, ◌≤◌, ℕ, ℤ, List, ◌++◌, length, FitsSigned};
ghost use Rattle.std.specs.Int.{w16};
ghost use Rattle.std.specs.List.{AllByRecursion};
ghost use Rattle.sample_buf.specs.declared.waves.Wave.{Wave as AWave};
ghost use Rattle.sample_buf.specs.Waves.{IsWave, IsFault};
ghost use Rattle.wav_writer.specs.Wav.{header_of, bytes_of_samples};

/// A file is at most one wave.
pub fn one_wave()
    ensures { (file : List ℕ) (wave other : AWave) → IsWave file wave → IsWave file other →
        wave ≡ other }
{}

/// A file that is a wave has no fault.
pub fn a_wave_or_a_fault()
    ensures { (file : List ℕ) (wave : AWave) (at : ℕ) → IsWave file wave → IsFault file at → ⊥ }
{}

/// A file has at most one fault.
pub fn one_fault()
    ensures { (file : List ℕ) (at other : ℕ) → IsFault file at → IsFault file other → at ≡ other }
{}

/// What `wav_writer` writes of one channel is read: the header of so many frames, with the samples
/// behind it, is the wave of these samples at 44,100 frames a second.
pub fn what_is_written_is_read()
    ensures { (samples : List ℤ) → length samples ≤ 500_000_000 →
        AllByRecursion (FitsSigned w16) samples →
        IsWave (header_of (length samples) 1 ++ bytes_of_samples samples)
        (record { rate = 44_100; frames = samples }) }
{}
