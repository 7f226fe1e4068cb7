//! What the code of the scheme does: what the trees do, on every function, arguments and stores.
//!
//! It has no function: its proofs, that a code of the scheme is verified and does what its trees do,
//! carry the contract of the compiler.
#![tactic(auto)]
