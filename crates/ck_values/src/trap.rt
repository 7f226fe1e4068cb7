ghost use Rattle.std.specs.Prelude.{◌≡◌};

/// A place in the source, of which the machine keeps one for each instruction.
#[derive(Clone, Copy, PartialEq, Eq)]
pub struct Place {
    /// The file's place among the files of the command, from 0.
    pub file: u32,
    /// The line, from 1.
    pub line: u32,
}

/// What can end a shred at the code that it runs.
#[derive(Clone, Copy, PartialEq, Eq)]
pub enum Trap {
    /// A member, an item, a call, a connection or a wait was used on null.
    NullPointer,
    /// An index was below 0, or not below the size.
    ArrayOutOfBounds,
    /// The divisor of `/` or `%` was zero.
    DivisionByZero,
    /// A wait was for a time before now.
    TimeBeforeNow,
    /// A turn was wanted, and none was left at this sample.
    Turns,
    /// A call was begun while a thousand were active.
    CallDepth,
    /// A spork came after all that are allowed at one sample.
    SporkLimit,
    /// A string would have been too long.
    StringLimit,
    /// An array would have had fewer than no items, or too many.
    ArrayLimit,
    /// The length of a delay line, or its delay, was out of range.
    DelayLimit,
    /// A connection was added to as many as there may be.
    Connections,
    /// An object was made after all that a run may make.
    ObjectLimit,
}

impl Trap {
    ghost use Rattle.ck_values.specs.Trap.{trap_name};

    /// The trap's name as a report prints it.
    pub fn name(&self) -> &'static str
        ensures { result.now ≡ trap_name self.now }
    {
        match self {
            Trap::NullPointer => "NullPointer",
            Trap::ArrayOutOfBounds => "ArrayOutOfBounds",
            Trap::DivisionByZero => "DivisionByZero",
            Trap::TimeBeforeNow => "TimeBeforeNow",
            Trap::Turns => "Turns",
            Trap::CallDepth => "CallDepth",
            Trap::SporkLimit => "SporkLimit",
            Trap::StringLimit => "StringLimit",
            Trap::ArrayLimit => "ArrayLimit",
            Trap::DelayLimit => "DelayLimit",
            Trap::Connections => "Connections",
            Trap::ObjectLimit => "ObjectLimit",
        }
    }
}
