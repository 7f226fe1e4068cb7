//! What an expression stands for.
ghost use Rattle.check_scope.specs.Denotations as definition;
ghost use Rattle.check_scope.specs.View.{view_denoted, view_typed, Answers};

use crate::scope::Scope;
use crate::typed::Typed;
use ck_base::{List, Text};
use ck_typed::{Spot, TypedExpr, Variadic};
use ck_values::Kind;
use std::alloc::Global;
use type_rules::{Holder, Parameter};
use type_table::{BuiltInName, FaultKind, TypeFault};

/// A variable, a field or an item: where a value may stand.
#[derive(Drop)]
pub struct Target {
    pub spot: Spot,
    /// The values that its spot takes: an object, or an array and an index.
    pub address: List<TypedExpr>,
    pub kind: Kind,
}

/// What can be called.
#[derive(Drop)]
pub enum Callee {
    /// A function by its number.
    Numbered(u32),
    /// A static function by its number, named through a value.
    Through {
        object: Box<TypedExpr>,
        fun: u32,
    },
    /// A member function of a receiver.
    Method {
        receiver: Box<TypedExpr>,
        fun: u32,
        slot: u32,
    },
    /// A built-in call by itself.
    Native {
        holder: Holder,
        name: Text,
    },
    /// A built-in call on a receiver.
    NativeOn {
        receiver: Box<TypedExpr>,
        holder: Holder,
        name: Text,
    },
    /// A parameter of a unit generator.
    Param {
        ugen: Box<TypedExpr>,
        parameter: Parameter,
    },
    /// `me.yield`
    Yield,
    /// `me.exit`
    Exit,
}

/// A declaration.
#[derive(Drop)]
pub struct Declaration {
    /// Where its value stands, and of which type it is.
    pub target: Target,
    /// The declaration by itself.
    pub alone: Box<TypedExpr>,
    /// Whether it makes an object or has a size.
    pub makes: bool,
}

/// What a declaration makes its first value of.
#[derive(Drop)]
pub enum Making {
    /// The sizes in its brackets.
    Sizes(List<Typed>),
    /// The arguments of a constructor.
    Arguments(List<Typed>),
}

/// What an expression stands for.
#[derive(Drop)]
pub enum Denoted {
    Value(Typed),
    Target(Target),
    Callable(Callee),
    /// A class, or another name that every program has.
    Named(BuiltInName),
    Declared(Declaration),
    /// A declaration with `auto`, which takes the type of what is assigned to it.
    Auto {
        name: Text,
        /// Whether it is written with nothing but its name, and is no member of a class.
        has_form: bool,
    },
}

/// The value of what an expression at a line stands for.
#[tactic(auto, using(crate::proofs::Rows::rows))]
pub fn as_value(
    alloc: Global,
    scope: &Scope,
    line: u32,
    meaning: Denoted,
) -> Result<Typed, TypeFault>
    ensures { Answers view_typed result
        (definition.as_value scope.now line (view_denoted meaning)) }
{
    match meaning {
        Denoted::Value(value) => Ok(value),
        Denoted::Target(target) => {
            let place = scope.place(line);
            let read = TypedExpr::Variadic {
                operation: Variadic::Read(target.spot),
                operands: target.address,
                place,
            };
            Typed::new(alloc, read, target.kind, place)
        }
        Denoted::Callable(_) => Err(scope.wrong(line, FaultKind::Mismatch)),
        Denoted::Named(_) => Err(scope.wrong(line, FaultKind::Mismatch)),
        Denoted::Auto { .. } => Err(scope.wrong(line, FaultKind::BadPlace)),
        Denoted::Declared(declaration) => Ok(Typed {
            expr: declaration.alone,
            kind: declaration.target.kind,
            place: scope.place(line),
            is_null: false,
        }),
    }
}
