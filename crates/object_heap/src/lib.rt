//! The objects of a run, by their numbers.
//!
//! Its one contract: [`Heap`] gives each new object the next number, and then keeps its body, of
//! which one value at a time is replaced, or is put at the end of an array or taken from there. The
//! machine makes objects, reads and sets their fields and items, and grows and clears arrays with
//! it. An object stays as long as the heap does.
#![tactic(auto)]

mod body;
mod heap;

pub use body::Body;
pub use heap::{Heap, MakeEnd};
