//! What the compiler has to do, as definitions: the strings of a code, the code of each form, and
//! when a code does what a program does.
//!
//! Its one contract is these definitions: the compiler gives the code that they state.
#![tactic(auto)]
