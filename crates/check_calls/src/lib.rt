//! What calls, sporks and chucks stand for, once what is called, its arguments and what is chucked
//! are typed; and objects that are made with arguments.
//!
//! Its one contract: each call answers with what the definition says of its form: the value with
//! each argument taken as its parameter, or exactly the fault. Only want of memory is a free
//! answer. The typing of whole expressions stands on it.
#![tactic(auto)]

mod calls;
mod chuck;
mod objects;

pub use calls::{call_meaning, spork_meaning};
pub use chuck::chuck_meaning;
pub use objects::{maker_of, object_made};
