use crate::operation::{Binary, Leaf, Unary, Variadic};
use ck_base::{List, Text};
use ck_values::{Elem, Op2, Place};

/// Where a value may stand, beside the values that lead there: the address. The address is
/// nothing for a local or a static, the object for a field, and the array and the index for an
/// item.
#[derive(Clone, Copy, PartialEq, Eq)]
pub enum Spot {
    /// A local by its number: `this`, parameters, then declarations in text order.
    Local(u32),
    /// A file variable or a static member by its number.
    Static(u32),
    /// A static member that is named through a value, which is the address and is dropped.
    StaticOf(u32),
    /// A field of an object by its number.
    Field(u32),
    /// An item of an array.
    Item,
}

/// Whether `++` or `--`.
#[derive(Clone, Copy, PartialEq, Eq)]
pub enum Direction {
    Up,
    Down,
}

/// An expression whose types are settled. Its place is that of its first token.
///
/// Most are an operation on the values of operands, which are evaluated from the left to the
/// right; the other forms evaluate some operand not always, or do something between two.
///
/// A declaration is the assignment of its first value.
#[derive(Drop)]
pub enum TypedExpr {
    /// What has no operand.
    Leaf(Leaf, Place),
    /// A string.
    Text {
        value: Text,
        place: Place,
    },
    /// An operation on one value.
    Unary {
        operation: Unary,
        operand: Box<TypedExpr>,
        place: Place,
    },
    /// An operation on two values.
    Binary {
        operation: Binary,
        left: Box<TypedExpr>,
        right: Box<TypedExpr>,
        place: Place,
    },
    /// An operation on any number of values.
    Variadic {
        operation: Variadic,
        operands: List<TypedExpr>,
        place: Place,
    },
    /// `left && right`.
    And {
        left: Box<TypedExpr>,
        right: Box<TypedExpr>,
        place: Place,
    },
    /// `left || right`.
    Or {
        left: Box<TypedExpr>,
        right: Box<TypedExpr>,
        place: Place,
    },
    /// `test ? then : otherwise`.
    Choice {
        test: Box<TypedExpr>,
        then: Box<TypedExpr>,
        otherwise: Box<TypedExpr>,
        place: Place,
    },
    /// `value => target`, and a declaration with its first value.
    Assign {
        value: Box<TypedExpr>,
        spot: Spot,
        address: List<TypedExpr>,
        place: Place,
    },
    /// `value => T x` where the declaration makes an object or an array, which it does after the
    /// value and before the assignment.
    AssignDeclared {
        value: Box<TypedExpr>,
        declaration: Box<TypedExpr>,
        spot: Spot,
        address: List<TypedExpr>,
        place: Place,
    },
    /// `value op=> target`.
    Update {
        operator: Op2,
        value: Box<TypedExpr>,
        spot: Spot,
        address: List<TypedExpr>,
        place: Place,
    },
    /// `++target` or `--target`.
    Prefix {
        direction: Direction,
        spot: Spot,
        address: List<TypedExpr>,
        place: Place,
    },
    /// `target++` or `target--`.
    Postfix {
        direction: Direction,
        spot: Spot,
        address: List<TypedExpr>,
        place: Place,
    },
    /// A new object of a class, by the class's number.
    New {
        class: u32,
        place: Place,
    },
    /// A new array of so many new objects: a class, or unit generators of a kind. Where there is a
    /// constructor, each object is made by it, without arguments.
    NewObjects {
        elem: Elem,
        size: Box<TypedExpr>,
        constructor: Option<u32>,
        place: Place,
    },
    /// A new object with arguments: the object is made, and then the constructor is called on it,
    /// a function by its number.
    Construct {
        object: Box<TypedExpr>,
        fun: u32,
        arguments: List<TypedExpr>,
        place: Place,
    },
    /// A call of a static function that is named through a value, which is dropped.
    CallOf {
        object: Box<TypedExpr>,
        fun: u32,
        arguments: List<TypedExpr>,
        place: Place,
    },
    /// `spork ~ object.f(..)` with a static function f.
    SporkOf {
        object: Box<TypedExpr>,
        fun: u32,
        arguments: List<TypedExpr>,
        place: Place,
    },
}
