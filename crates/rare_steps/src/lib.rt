//! The instructions that loops and calls are seldom made of: makings, prints, sporks, events,
//! built-in calls, and all that is done to unit generators.
//!
//! Its one contract: [`rare_step`] does what the definition of its instruction says, or there was
//! not enough memory. The machine calls it where an instruction isn't carried out within its loop.
#![tactic(auto, using(machine_world::proofs::Operands::operands), unfolding(machine_world::specs::Shown::shown))]

mod apart;
mod arrays;
mod events;
mod fields;
mod graph;
mod keys;
mod makings;
mod natives;
mod operands;
mod print;
mod random;
mod sporks;
mod yields;

pub use apart::rare_step;
