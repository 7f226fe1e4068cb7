//! `new`: objects and arrays.
ghost use Rattle.std.specs.Prelude.{◌≡◌, [], ◌∷◌};
ghost use Rattle.check_scope.specs.Expressions as definition;
ghost use Rattle.check_scope.specs.View.{view_typed, all_typed, Answers, view_value};

use crate::operators::are_ints;
use check_calls::object_made;
use check_scope::{Scope, Typed, is_int, mismatch, typed_at, value_at};
use ck_base::List;
use ck_typed::{Binary, TypedExpr, Unary};
use ck_values::{Elem, Kind};
use std::alloc::Global;
use type_table::{FaultKind, Named, Table, TypeFault};

/// Whether `new` makes arrays of these.
fn is_new_item(elem: Elem) -> bool
    ensures { result ≡ definition.is_new_item elem }
{
    matches!(
        elem,
        Elem::Int | Elem::Float | Elem::Dur | Elem::Time | Elem::Text
    )
}

/// A new object, made with these arguments.
fn new_object(
    alloc: Global,
    table: &Table,
    scope: &Scope,
    line: u32,
    elem: Elem,
    arguments: List<Typed>,
) -> Result<Typed, TypeFault>
    ensures { Answers view_value result
        (definition.new_object table.now scope.now line elem (all_typed arguments)) }
{
    let object = object_made(alloc, table, scope, line, elem, arguments)?;
    Ok(typed_at(scope, line, object, Kind::One(elem)))
}

/// A new array of one dimension.
fn new_row(
    alloc: Global,
    table: &Table,
    scope: &Scope,
    line: u32,
    elem: Elem,
    size: Typed,
) -> Result<Typed, TypeFault>
    ensures { Answers view_value result
        (definition.new_array table.now scope.now line elem (view_typed size ∷ [])) }
{
    if !is_new_item(elem) || !is_int(size.kind) {
        return Err(mismatch(scope, line));
    }
    let new = TypedExpr::Unary {
        operation: Unary::NewRow(elem),
        operand: size.expr,
        place: scope.place(line),
    };
    value_at(alloc, scope, line, new, Kind::Row(elem))
}

/// A new array of two dimensions.
fn new_grid(
    alloc: Global,
    table: &Table,
    scope: &Scope,
    line: u32,
    elem: Elem,
    rows: Typed,
    columns: Typed,
) -> Result<Typed, TypeFault>
    ensures { Answers view_value result
        (definition.new_array table.now scope.now line elem (view_typed rows ∷ view_typed columns ∷ [])) }
{
    if !is_new_item(elem) || !are_ints(&rows, &columns) {
        return Err(mismatch(scope, line));
    }
    let new = TypedExpr::Binary {
        operation: Binary::NewGrid(elem),
        left: rows.expr,
        right: columns.expr,
        place: scope.place(line),
    };
    value_at(alloc, scope, line, new, Kind::Grid(elem))
}

/// A new array of so many dimensions as sizes are given, and without any a new object.
fn new_array(
    alloc: Global,
    table: &Table,
    scope: &Scope,
    line: u32,
    elem: Elem,
    mut sizes: Vec<Typed>,
) -> Result<Typed, TypeFault>
    ensures { Answers view_value result
        (definition.new_array table.now scope.now line elem (all_typed sizes.items)) }
{
    let Some(last) = sizes.pop() else {
        let arguments = List::from_vec(Vec::new(alloc));
        return new_object(alloc, table, scope, line, elem, arguments);
    };
    let Some(before) = sizes.pop() else {
        return new_row(alloc, table, scope, line, elem, last);
    };
    if sizes.is_empty() {
        new_grid(alloc, table, scope, line, elem, before, last)
    } else {
        Err(mismatch(scope, line))
    }
}

/// `new T`, and `new T[n]` with its sizes.
pub fn new_meaning(
    alloc: Global,
    table: &Table,
    scope: &Scope,
    line: u32,
    named: Named,
    sizes: Vec<Typed>,
) -> Result<Typed, TypeFault>
    ensures { Answers view_value result
        (definition.new_meaning table.now scope.now line named (all_typed sizes.items)) }
{
    match named {
        Named::Unknown => Err(scope.wrong(line, FaultKind::UnknownName)),
        Named::Elem(elem) => new_array(alloc, table, scope, line, elem, sizes),
        _ => Err(mismatch(scope, line)),
    }
}

/// `new T(arguments)`
pub fn new_with_meaning(
    alloc: Global,
    table: &Table,
    scope: &Scope,
    line: u32,
    named: Named,
    arguments: List<Typed>,
) -> Result<Typed, TypeFault>
    ensures { Answers view_value result
        (definition.new_with_meaning table.now scope.now line named (all_typed arguments)) }
{
    match named {
        Named::Unknown => Err(scope.wrong(line, FaultKind::UnknownName)),
        Named::Elem(elem) => new_object(alloc, table, scope, line, elem, arguments),
        _ => Err(mismatch(scope, line)),
    }
}
