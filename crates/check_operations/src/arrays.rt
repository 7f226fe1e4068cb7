//! Arrays of values, and their items.
ghost use Rattle.std.specs.Prelude.{◌≡◌, IfOk, IfErr};
ghost use Rattle.std.specs.List.{list_all};
ghost use Rattle.ck_values.specs.declared.kind.Elem.TheVariants.{Float as float};
ghost use Rattle.ck_values.specs.declared.kind.Kind.TheVariants.{One as one_of, Row as row_of, Grid as grid_of};
ghost use Rattle.ck_typed.specs.Tree as form;
ghost use Rattle.ck_typed.specs.declared.operation.Variadic.TheVariants as variadic_op;
ghost use Rattle.ck_typed.specs.View.{view_expr, exprs_of};
ghost use Rattle.check_scope.specs.Expressions as definition;
ghost use Rattle.check_scope.specs.Denotations.{value, one};
ghost use Rattle.check_scope.specs.Scope.{place as place_of};
ghost use Rattle.check_scope.specs.View.{view_denoted, view_typed, all_typed, Answers, view_value};
ghost use Rattle.type_table.specs.Answer.{gives};
ghost use Rattle.fixed_point.specs.Wanting.{out_of_memory};
ghost use Rattle.type_table.specs.declared.fault.TypeFault.TheVariants.{Memory as memory};

use check_scope::{
    Denoted, Scope, Target, Typed, fits, is_int, mismatch, push, taken_as, value_at,
};
use ck_base::List;
use ck_typed::{Spot, TypedExpr, Variadic};
use ck_values::{Elem, Kind};
use std::alloc::Global;
use type_rules::{is_reference, is_same};
use type_table::TypeFault;

/// Values where such of this type are wanted.
pub(crate) fn all_taken_as(
    alloc: Global,
    values: Vec<Typed>,
    kind: Kind,
) -> Result<List<TypedExpr>, TypeFault>
    ensures made { IfOk result
        (λ es. exprs_of es ≡ definition.all_taken_as (all_typed values.items) kind) }
    ensures memory { IfErr result (λ why. why ≡ memory out_of_memory) }
{
    let mut taken = Vec::new(alloc);
    for value in values {
        let expr = taken_as(alloc, value, kind)?;
        push(&mut taken, Box::into_inner(expr))?;
    }
    Ok(List::from_vec(taken))
}

/// Whether values all fit a type.
pub(crate) fn all_fit(parents: &[u32], values: &[Typed], kind: Kind) -> bool
    ensures { result ≡ definition.all_fit parents.now (all_typed values.now) kind }
{
    for value in values {
        if !fits(parents, value, kind) {
            return false;
        }
    }
    true
}

/// Whether a value is a one-dimensional array of this type.
fn is_row_of(elem: Elem, value: &Typed) -> bool
    ensures { result ≡ definition.is_row_of elem (view_typed value.now) }
{
    match value.kind {
        Kind::Row(other) => is_same(elem, other),
        _ => false,
    }
}

/// Whether values are all one-dimensional arrays of this type.
fn are_rows_of(elem: Elem, values: &[Typed]) -> bool
    ensures { result ≡ list_all (definition.is_row_of elem) (all_typed values.now) }
{
    for value in values {
        if !is_row_of(elem, value) {
            return false;
        }
    }
    true
}

/// An array of values of this type.
#[tactic(auto, using(check_scope::proofs::Rows::rows))]
fn array_of_items(
    alloc: Global,
    scope: &Scope,
    line: u32,
    elem: Elem,
    values: Vec<Typed>,
) -> Result<Typed, TypeFault>
    ensures typed { IfOk result
        (λ t. definition.value_at scope.now line
        (form.Variadic (variadic_op.Array elem)
        (definition.all_taken_as (all_typed values.items) (one_of elem)) (place_of scope.now line))
        (row_of elem) ≡ gives (value (view_typed t))) }
    ensures memory { IfErr result (λ why. why ≡ memory out_of_memory) }
{
    let array = TypedExpr::Variadic {
        operation: Variadic::Array(elem),
        operands: all_taken_as(alloc, values, Kind::One(elem))?,
        place: scope.place(line),
    };
    value_at(alloc, scope, line, array, Kind::Row(elem))
}

/// An array of items that aren't arrays: all fit the first, or all fit float.
fn items_meaning(
    alloc: Global,
    parents: &[u32],
    scope: &Scope,
    line: u32,
    elem: Elem,
    values: Vec<Typed>,
) -> Result<Typed, TypeFault>
    ensures { Answers view_value result
        (definition.items_meaning parents.now scope.now line elem (all_typed values.items)) }
{
    if all_fit(parents, values.as_slice(), Kind::One(elem)) {
        array_of_items(alloc, scope, line, elem, values)
    } else if all_fit(parents, values.as_slice(), Kind::One(Elem::Float)) {
        array_of_items(alloc, scope, line, Elem::Float, values)
    } else {
        Err(mismatch(scope, line))
    }
}

/// An array of one-dimensional arrays of one plain type.
#[tactic(auto, using(check_scope::proofs::Rows::rows))]
fn rows_meaning(
    alloc: Global,
    scope: &Scope,
    line: u32,
    elem: Elem,
    values: Vec<Typed>,
) -> Result<Typed, TypeFault>
    ensures { Answers view_value result
        (definition.rows_meaning scope.now line elem (all_typed values.items)) }
{
    if is_reference(elem) || !are_rows_of(elem, values.as_slice()) {
        return Err(mismatch(scope, line));
    }
    let array = TypedExpr::Variadic {
        operation: Variadic::ArrayOfRows(elem),
        operands: all_taken_as(alloc, values, Kind::Row(elem))?,
        place: scope.place(line),
    };
    value_at(alloc, scope, line, array, Kind::Grid(elem))
}

/// An array whose first item is of this type.
fn array_of(
    alloc: Global,
    parents: &[u32],
    scope: &Scope,
    line: u32,
    first: Kind,
    values: Vec<Typed>,
) -> Result<Typed, TypeFault>
    ensures { Answers view_value result
        (definition.array_of parents.now scope.now line first (all_typed values.items)) }
{
    match first {
        Kind::One(elem) => items_meaning(alloc, parents, scope, line, elem, values),
        Kind::Row(elem) => rows_meaning(alloc, scope, line, elem, values),
        _ => Err(mismatch(scope, line)),
    }
}

/// `[a, b]`
pub fn array_meaning(
    alloc: Global,
    parents: &[u32],
    scope: &Scope,
    line: u32,
    values: Vec<Typed>,
) -> Result<Typed, TypeFault>
    ensures { Answers view_value result
        (definition.array_meaning parents.now scope.now line (all_typed values.items)) }
{
    let first = match values.first() {
        Some(first) => first.kind,
        None => return Err(mismatch(scope, line)),
    };
    array_of(alloc, parents, scope, line, first, values)
}

/// The address of an item.
fn item_address(
    alloc: Global,
    array: Box<TypedExpr>,
    index: Box<TypedExpr>,
) -> Result<List<TypedExpr>, TypeFault>
    ensures made { IfOk result
        (λ es. exprs_of es
        ≡ form.more_exprs (view_expr array.value) (one (view_expr index.value))) }
    ensures memory { IfErr result (λ why. why ≡ memory out_of_memory) }
{
    let mut address = Vec::new(alloc);
    push(&mut address, Box::into_inner(array))?;
    push(&mut address, Box::into_inner(index))?;
    Ok(List::from_vec(address))
}

/// An item of an array of this type.
fn item_at(
    alloc: Global,
    scope: &Scope,
    line: u32,
    array: Typed,
    index: Typed,
) -> Result<Denoted, TypeFault>
    ensures { Answers view_denoted result
        (definition.item_at scope.now line (view_typed array) (view_typed index) array.kind) }
{
    let kind = match array.kind {
        Kind::Row(elem) => Kind::One(elem),
        Kind::Grid(elem) => Kind::Row(elem),
        _ => return Err(mismatch(scope, line)),
    };
    Ok(Denoted::Target(Target {
        spot: Spot::Item,
        address: item_address(alloc, array.expr, index.expr)?,
        kind,
    }))
}

/// `array[index]`
pub fn item_meaning(
    alloc: Global,
    scope: &Scope,
    line: u32,
    array: Typed,
    index: Typed,
) -> Result<Denoted, TypeFault>
    ensures { Answers view_denoted result
        (definition.item_meaning scope.now line (view_typed array) (view_typed index)) }
{
    if is_int(index.kind) {
        item_at(alloc, scope, line, array, index)
    } else {
        Err(mismatch(scope, line))
    }
}
