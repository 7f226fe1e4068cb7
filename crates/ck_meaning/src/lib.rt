//! What a program means, as definitions: what its trees do on the stores that the slices of a shred
//! find, and the run of its shreds, by the source and by the code.
//!
//! Its one contract is these definitions: the compiler is proved against them, and the top call
//! writes what they say. Worked programs, computed by the definitions, stand in `proofs/Examples`:
//! their slices are those that a reader works out by hand.
#![tactic(auto)]
