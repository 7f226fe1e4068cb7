use ck_values::{Ref, Side};
use fixed_point::Memory;

/// An end of a connection.
#[derive(Clone, Copy, PartialEq, Eq)]
pub struct Joint {
    /// The unit generator's place among all of the graph.
    pub node: usize,
    /// The object that it belongs to.
    pub at: Ref,
}

/// A connection from a source to what reads it, and the side of the reader that it goes to.
#[derive(Clone, Copy, PartialEq, Eq)]
pub struct Link {
    pub from: Joint,
    pub to: Joint,
    pub side: Side,
}

/// Why a connection was not added.
#[derive(Clone, Copy, PartialEq, Eq)]
pub enum ConnectEnd {
    /// There are as many as there may be.
    Connections,
    /// Memory was wanting.
    Memory(Memory),
}
