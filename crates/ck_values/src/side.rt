/// Which side of a unit generator with two sides a connection goes to or comes from. The language
/// doesn't tell them apart yet: each connection is of both.
#[derive(Clone, Copy, PartialEq, Eq)]
pub enum Side {
    Both,
    Left,
    Right,
}
