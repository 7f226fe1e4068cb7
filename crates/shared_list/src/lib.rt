//! Lists of plain data that share what they have in common.
//!
//! Its one contract: contracts see a [`SharedList`] as the list of its items, and each change of
//! one list leaves all others as they were. A copy shares all but the first [`CHUNK`] items with the
//! list that it is of, and so costs these and a number for each further [`CHUNK`]; what is changed
//! later is no longer shared, and what isn't changed still is. So each class of a long line may have
//! the fields of all its ancestors.
#![tactic(auto)]

mod chunk;
mod chunks;
mod list;

pub use chunk::CHUNK;
pub use list::SharedList;
