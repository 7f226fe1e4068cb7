/// How a unit generator joins the outputs of its sources, its parameter `op`.
#[derive(Clone, Copy, PartialEq, Eq)]
pub enum Joining {
    /// The number -1: the sum of the sources goes past the unit generator's own tick.
    Through,
    /// The number 0: nothing is heard, and no tick runs.
    Off,
    /// The number 1.
    Sum,
    /// The number 2: the first less the others.
    Difference,
    /// The number 3.
    Product,
    /// The number 4: the first, divided by the others in turn.
    Quotient,
}

/// What is heard of an output: one of its sides, or their mean.
#[derive(Clone, Copy, PartialEq, Eq)]
pub enum Channel {
    Mean,
    Left,
    Right,
}
