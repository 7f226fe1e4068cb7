//! How unit generators are connected, and what a sample makes of them.
//!
//! Its one contract: the definitions in `specs/` say the order in which a sample pulls the unit
//! generators, and what each makes of what it hears: `dac` hears its left and its right sources
//! apart, and every other one the means of both sides. A [`UnitState`] is what every unit generator
//! keeps, whatever its kind; each of its calls is the equation of these definitions. [`laws`] has
//! what follows from them: each has one turn, after its sources but for those in a loop with it;
//! other numbers sound alike; and without sides and Pan2 both sides have the sample of one channel.
//! The graph is proved against these, and the store of a run is made of them.
#![tactic(auto)]

mod choices;
pub mod laws;
mod unit;

pub use choices::{Channel, Joining};
pub use unit::UnitState;
