/// A reference to an object.
#[derive(Clone, Copy, PartialEq, Eq)]
pub struct Ref {
    /// The object's number in order of making, from 1. It is never used again; 0 is null.
    pub serial: u64,
    /// Where the heap keeps the object.
    pub slot: usize,
}
