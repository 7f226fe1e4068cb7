//! The waves that a program plays: WAV files of 16 bits, as bytes.
//!
//! Its one contract: [`wave`] answers exactly the frames that the bytes of a RIFF WAVE file have, or
//! exactly the place from which on they are none. No command reads a wave yet.
#![tactic(auto)]

mod chunk;
mod fault;
mod format;
pub mod laws;
mod reading;
mod waves;

pub use fault::WaveFault;
pub use reading::wave;
pub use waves::{MAX_WAVE_BYTES, Wave};

#[cfg(test)]
mod tests;
