use crate::expr::Spot;
use crate::native::Native;
use ck_values::{Elem, Op1, Op2};
use fixed_point::Fix;
use ugen_names::{Param, UgenKind};

/// What an expression without operands is.
#[derive(Clone, Copy)]
pub enum Leaf {
    /// An int.
    Int(i64),
    /// A float.
    Float(Fix),
    /// A count of samples.
    Dur(i64),
    /// A count of samples since the run began.
    Time(i64),
    /// The null of references.
    Null,
    /// The null of shreds.
    NoShred,
    /// `now`.
    Now,
    /// `me`.
    Me,
    /// `dac`.
    Dac,
    /// `blackhole`.
    Blackhole,
    /// A new unit generator.
    NewUgen(UgenKind),
    /// `me.yield()`.
    Yield,
    /// `me.exit()`.
    Exit,
}

/// What is done with the value of one operand.
#[derive(Clone, Copy)]
pub enum Unary {
    /// An operator of one operand.
    Operator(Op1),
    /// `count :: unit` with an int: so many times the unit of numerator / denominator samples.
    UnitInt { numerator: i64, denominator: i64 },
    /// `count :: unit` with a float.
    UnitFloat { numerator: i64, denominator: i64 },
    /// A new array of so many defaults.
    NewRow(Elem),
    /// `ugen.parameter()`.
    Param(Param),
    /// `duration => now`.
    WaitDur,
    /// `time => now`.
    WaitTime,
    /// `event => now`.
    WaitEvent,
}

/// What is done with the values of two operands.
#[derive(Clone, Copy)]
pub enum Binary {
    /// An operator of two operands.
    Operator(Op2),
    /// A new array of so many new arrays of so many defaults.
    NewGrid(Elem),
    /// `array << value`.
    Append,
    /// `argument => receiver.f`, a member function by its virtual slot.
    ChuckMethod(u32),
    /// `argument => object.f`, a static function by its number.
    ChuckCallOf(u32),
    /// `argument => receiver.f`, a built-in call.
    ChuckNative(Native),
    /// `ugen.parameter(value)`.
    SetParam(Param),
    /// `value => ugen.parameter`.
    ChuckParam(Param),
    /// `from => to` between unit generators.
    Connect,
    /// `from =< to`.
    Disconnect,
}

/// What is done with the values of any number of operands.
#[derive(Clone, Copy)]
pub enum Variadic {
    /// What stands at a spot, whose address the operands are.
    Read(Spot),
    /// `[a, b]`, an array of these items.
    Array(Elem),
    /// `[a, b]`, an array of these arrays.
    ArrayOfRows(Elem),
    /// A call of a function by its number.
    Call(u32),
    /// A call of a member function by its virtual slot; the first operand is the receiver.
    Method(u32),
    /// A built-in call; the first operand is the receiver, where there is one.
    Native(Native),
    /// `spork ~ f(..)`.
    Spork(u32),
    /// `spork ~ receiver.f(..)`; the first operand is the receiver.
    SporkMethod(u32),
}
