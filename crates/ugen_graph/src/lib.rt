//! The graph of unit generators: how they are connected, and what a sample makes of them.
//!
//! Its one contract: a [`Graph`] stands for its unit generators by node, each with all that it
//! keeps, and for its connections in order; and each call is exact over the two. A tick is the
//! sample of the definitions: from the output on, each unit generator that is reached makes its own
//! output after its sources. The order in which it does so is kept, and found anew only where
//! connections change. A node whose unit generator was taken out is free, and used again.
#![tactic(auto)]

mod graph;
mod input;
mod link;
mod sample;
mod sources;
#[cfg(test)]
mod tests;
mod turn;
mod visit;
mod wires;
mod wiring;

pub use graph::Graph;
pub use link::{ConnectEnd, Joint, Link};
