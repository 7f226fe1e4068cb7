//! What a running program works on, as definitions: the store, what a slice records and asks for,
//! what operators give, and the steps that the source meaning and the machine share.
//!
//! Its one contract is these definitions. The meaning of trees, the meaning of code and the run of
//! all shreds are stated with them, and the machine is proved against them.
#![tactic(auto)]
