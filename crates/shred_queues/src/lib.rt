//! Shreds in queues: a queue for each key, in which the shreds stand in order of arrival.
//!
//! Its one contract: contracts see the list of keys and shreds by rising key, and among equal keys
//! in order of arrival. The queue of shreds that are due is such queues, by their times, and so is
//! that of shreds that wait, by their events.
//!
//! A shred stands in one queue at most. Putting one in, taking one out by its number and finding
//! the first, or the first of a queue, cost a logarithm of how many there are. The first of all may
//! be held apart, so a shred that is always the next one costs no change of a map.
#![tactic(auto)]

mod held;
mod places;
mod queues;

pub use queues::Queues;
