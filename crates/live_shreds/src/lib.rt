//! The live shreds of a machine, found by their numbers and by their parents.
//!
//! Its one contract: contracts see the list of the live shreds in order of their numbers. A shred
//! joins behind all others, runs its next slice where it stands, and ends by
//! [`Shreds::take_childless`], which takes out one of those that end with a shred: one that has no
//! live child. So a shred and all that it sporked, and all that those sporked, end one by one, each
//! at the cost of a logarithm of how many are live, and without memory.
#![tactic(auto)]

mod shreds;

pub use shreds::Shreds;
