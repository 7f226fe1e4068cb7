//! Objects that are made, by a constructor or by none.
ghost use Rattle.std.specs.Prelude.{◌≡◌};
ghost use Rattle.ck_typed.specs.View.{view_expr};
ghost use Rattle.type_table.specs.Table.{fun_of};
ghost use Rattle.check_scope.specs.Expressions as definition;
ghost use Rattle.check_scope.specs.View.{all_typed, Answers};

use crate::calls::taken_by;
use check_scope::{Scope, Typed, boxed, mismatch};
use ck_base::List;
use ck_typed::{Leaf, TypedExpr};
use ck_values::Elem;
use std::alloc::Global;
use type_table::{FaultKind, Table, TypeFault};
use ugen_names::UgenKind;

/// An object that its constructor makes.
#[tactic(auto, using(check_scope::proofs::Rows::rows))]
fn constructed(
    alloc: Global,
    table: &Table,
    scope: &Scope,
    line: u32,
    object: Box<TypedExpr>,
    arguments: List<Typed>,
    constructor: u32,
) -> Result<Box<TypedExpr>, TypeFault>
    ensures { Answers (λ e. view_expr e.value) result
        (definition.constructed scope.now line (view_expr object.value) constructor
        (definition.fitted table.now.parents (all_typed arguments)
        (fun_of table.now constructor).params)) }
{
    let arguments = taken_by(alloc, table, scope, line, constructor, arguments)?;
    let construct = TypedExpr::Construct {
        object,
        fun: constructor,
        arguments,
        place: scope.place(line),
    };
    boxed(alloc, construct)
}

/// An object that its constructor makes, or that is there without one, and then takes no arguments.
#[tactic(auto, using(check_scope::proofs::Lengths::lengths))]
fn made_by(
    alloc: Global,
    table: &Table,
    scope: &Scope,
    line: u32,
    object: Box<TypedExpr>,
    arguments: List<Typed>,
    constructor: Option<u32>,
) -> Result<Box<TypedExpr>, TypeFault>
    ensures { Answers (λ e. view_expr e.value) result
        (definition.made_by table.now scope.now line (view_expr object.value)
        (all_typed arguments) constructor) }
{
    match constructor {
        Some(fun) => constructed(alloc, table, scope, line, object, arguments, fun),
        None => match arguments.items() {
            [] => Ok(object),
            _ => Err(scope.wrong(line, FaultKind::Arguments)),
        },
    }
}

/// An object of a class or a unit generator, made with these arguments.
pub fn object_made(
    alloc: Global,
    table: &Table,
    scope: &Scope,
    line: u32,
    elem: Elem,
    arguments: List<Typed>,
) -> Result<Box<TypedExpr>, TypeFault>
    ensures { Answers (λ e. view_expr e.value) result
        (definition.object_made table.now scope.now line elem (all_typed arguments)) }
{
    let place = scope.place(line);
    match elem {
        Elem::Class(class) => {
            let object = boxed(alloc, TypedExpr::New { class, place })?;
            let constructor = table.construct(class);
            made_by(alloc, table, scope, line, object, arguments, constructor)
        }
        Elem::Unit(UgenKind::UGen) => Err(mismatch(scope, line)),
        Elem::Unit(kind) => {
            let object = boxed(alloc, TypedExpr::Leaf(Leaf::NewUgen(kind), place))?;
            made_by(alloc, table, scope, line, object, arguments, None)
        }
        _ => Err(mismatch(scope, line)),
    }
}

/// The constructor that makes an object alone, which takes nothing, or none.
fn made_alone(
    table: &Table,
    scope: &Scope,
    line: u32,
    constructor: Option<u32>,
) -> Result<Option<u32>, TypeFault>
    ensures { Answers (λ f. f) result
        (definition.made_alone table.now scope.now line constructor) }
{
    match constructor {
        Some(fun) if !table.params(fun).is_empty() => {
            Err(scope.wrong(line, FaultKind::Arguments))
        }
        _ => Ok(constructor),
    }
}

/// The constructor that makes each object of an array, where there is one.
pub fn maker_of(
    table: &Table,
    scope: &Scope,
    line: u32,
    elem: Elem,
) -> Result<Option<u32>, TypeFault>
    ensures { Answers (λ f. f) result (definition.maker_of table.now scope.now line elem) }
{
    match elem {
        Elem::Class(class) => made_alone(table, scope, line, table.construct(class)),
        _ => Ok(None),
    }
}
