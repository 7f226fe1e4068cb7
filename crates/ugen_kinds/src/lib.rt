//! What unit generators keep from sample to sample and what they do, each kind in a file and a page
//! of definitions of its own name.
//!
//! Its one contract: a [`Generator`] is what a unit generator keeps, which tells its kind. Each call
//! is the equation of that kind in the definitions, which speak of that very state: a tick gives
//! exactly its output and leaves what it keeps then, and parameters, keys and stages are read and
//! set exactly as they say. [`laws`] ties these to the table of kinds: the kind stays, and the
//! parameters that can be read and set are those of the table, which has their types and what each
//! reads of a new one. Only a new delay line takes memory. A sample of the connected unit generators
//! is made of these.
#![tactic(auto)]

mod adsr;
mod biquad;
mod choices;
mod delay_l;
mod echo;
mod envelope;
mod frequency;
mod generator;
mod impulse;
pub mod laws;
mod line;
mod noise;
mod one_pole;
mod one_zero;
mod output;
mod pan2;
mod ramp;
mod step;
mod wave;

pub use adsr::Adsr;
pub use biquad::BiQuad;
pub use choices::{SetEnd, Stage, Sync, WaveForm};
pub use delay_l::DelayL;
pub use echo::Echo;
pub use envelope::Envelope;
pub use generator::Generator;
pub use impulse::Impulse;
pub use line::Line;
pub use noise::Noise;
pub use one_pole::OnePole;
pub use one_zero::OneZero;
pub use output::Output;
pub use pan2::Pan2;
pub use ramp::Ramp;
pub use step::Step;
pub use wave::Wave;
