/// A function that runs, and where its values stand in the stack that all frames share: its locals
/// from `base` up to `middle`, its operands from `middle` up to the `base` of the next frame, or to
/// the end of the stack.
#[derive(Clone, Copy)]
pub(crate) struct Extent {
    /// The function's number.
    pub(crate) fun: u32,
    /// The place of its next instruction.
    pub(crate) place: usize,
    /// How many values stand below its locals.
    pub(crate) base: usize,
    /// How many values stand below its operands.
    pub(crate) middle: usize,
}
