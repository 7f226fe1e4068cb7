ghost use Rattle.std.specs.Prelude.{◌≡◌};
ghost use Rattle.ck_values.specs.ParamTypes.{elem_of};

use ugen_names::{ParamType, UgenKind};

/// The type of one value, or of an array's items.
#[derive(Clone, Copy, PartialEq, Eq)]
pub enum Elem {
    /// `int`.
    Int,
    /// `float`.
    Float,
    /// `dur`.
    Dur,
    /// `time`.
    Time,
    /// `string`.
    Text,
    /// `Shred`.
    Shred,
    /// A class by its number: 0 is `Object`, 1 is `Event`, and the program's own follow.
    Class(u32),
    /// A unit generator of this kind; `UGen` is the type that every one fits.
    Unit(UgenKind),
}

impl Elem {
    /// The type of the values of a parameter.
    pub fn of_param(values: ParamType) -> Elem
        ensures { result ≡ elem_of values }
    {
        match values {
            ParamType::Int => Elem::Int,
            ParamType::Float => Elem::Float,
            ParamType::Dur => Elem::Dur,
            ParamType::Text => Elem::Text,
        }
    }
}

/// The type of what an expression gives.
#[derive(Clone, Copy, PartialEq, Eq)]
pub enum Kind {
    /// Nothing: the result of a function without a value.
    Void,
    /// The literal `null`.
    Null,
    /// One value.
    One(Elem),
    /// A one-dimensional array.
    Row(Elem),
    /// A two-dimensional array.
    Grid(Elem),
}
