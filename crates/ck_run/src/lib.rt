//! The run of all shreds, as definitions: which one runs its next slice, what its acts and its
//! request do, when a sample is made, what a block of samples adds, and the lines that a run is
//! reported by.
//!
//! Its one contract is these definitions. They take how a shred's slice goes, and what a sample
//! makes of the unit generators, as arguments: so the run of the source and the run of the code are
//! the same words, and so are a run by the sound of two channels and one by that of one. The top
//! call writes what they say. The laws of [`laws`] say that parents stand before their children,
//! that what ends with a shred is then every live descendant, that a run may be made in any pieces,
//! and that without sides and Pan2 its two channels are one. For a runner that keeps the laws of
//! `specs/Sound`, the lemma `run_stands` of `proofs/Settling` says that each run is sound, and
//! `bound_never_met` that all that is due at a sample runs before it.
#![tactic(auto)]

pub mod laws;
