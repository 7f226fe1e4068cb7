//! The name of a `for` over an array.
ghost use Rattle.std.specs.Prelude.{◌≡◌, IfOk, IfErr};
ghost use Rattle.ck_typed.specs.Tree as typed;
ghost use Rattle.ck_typed.specs.View.{view_expr as typed_expr, view_stmt as typed_stmt};
ghost use Rattle.program_laws.specs.Statements as definition;
ghost use Rattle.check_scope.specs.View.{Answers};
ghost use Rattle.fixed_point.specs.Wanting.{out_of_memory};
ghost use Rattle.type_table.specs.declared.fault.TypeFault.TheVariants.{Memory as memory};

use check_exprs::Scope;
use check_scope::boxed;
use ck_syntax::{DeclHead, LoopItem};
use ck_typed::{TypedExpr, TypedStmt};
use ck_values::{Elem, Kind, Place};
use std::alloc::Global;
use type_rules::{fits, is_reference};
use type_table::{FaultKind, Named, Table, TypeFault, value_kind};

/// The type of an array's items.
pub(crate) fn item_kind(array: Kind) -> Option<Kind>
    ensures { result ≡ definition.item_kind array }
{
    match array {
        Kind::Row(elem) => Some(Kind::One(elem)),
        Kind::Grid(elem) => Some(Kind::Row(elem)),
        _ => None,
    }
}

/// Whether `@` may stand in the head of a `for`.
fn may_have_at(elem: Elem, brackets: usize) -> bool
    ensures { result ≡ definition.may_have_at elem brackets }
{
    brackets > 0 || is_reference(elem) || matches!(elem, Elem::Shred)
}

/// The type that the head of a `for` gives the name of its items.
fn head_kind(head: &DeclHead, named: Named, brackets: usize) -> Option<Kind>
    ensures { result ≡ definition.head_kind head.now named brackets }
{
    match named {
        Named::Elem(elem) if head.is_reference && !may_have_at(elem, brackets) => None,
        Named::Elem(_) => value_kind(named, brackets),
        _ => None,
    }
}

/// The written type, which an item fits.
fn taken_item(
    parents: &[u32],
    scope: &Scope,
    line: u32,
    item: Option<Kind>,
    local: Option<Kind>,
) -> Result<Kind, TypeFault>
    ensures { Answers (λ k. k) result
        (definition.taken_item parents.now scope.now line item local) }
{
    match (item, local) {
        (Some(item), Some(local)) if fits(parents, item, local) => Ok(local),
        _ => Err(scope.wrong(line, FaultKind::Mismatch)),
    }
}

/// The type of the items, which a name with `auto` takes.
fn auto_item(
    scope: &Scope,
    line: u32,
    head: &DeclHead,
    brackets: usize,
    item: Option<Kind>,
) -> Result<Kind, TypeFault>
    ensures { Answers (λ k. k) result
        (definition.auto_item scope.now line head.now brackets item) }
{
    let Some(kind) = item else {
        return Err(scope.wrong(line, FaultKind::Mismatch));
    };
    if head.is_reference || brackets > 0 {
        return Err(scope.wrong(line, FaultKind::BadPlace));
    }
    Ok(kind)
}

/// The type of the name of the items of an array, whose items have this type.
pub(crate) fn local_item(
    table: &Table,
    scope: &Scope,
    line: u32,
    name: &LoopItem,
    item: Option<Kind>,
) -> Result<Kind, TypeFault>
    ensures { Answers (λ k. k) result
        (definition.local_item table.now scope.now line name.now.head name.now.name
        name.now.brackets item name.now.head.base) }
{
    let Some(base) = &name.head.base else {
        if scope.is_declared(&name.name) {
            return Err(scope.wrong(line, FaultKind::Duplicate));
        }
        return auto_item(scope, line, &name.head, name.brackets, item);
    };
    let named = table.named(scope.file(), base);
    if named.is_unknown() {
        return Err(scope.wrong(line, FaultKind::UnknownName));
    }
    if scope.is_declared(&name.name) {
        return Err(scope.wrong(line, FaultKind::Duplicate));
    }
    let local = head_kind(&name.head, named, name.brackets);
    taken_item(table.parents(), scope, line, item, local)
}

/// Whether the items of an array are widened to this type.
pub(crate) fn widens(array: Kind, local: Kind) -> bool
    ensures { result ≡ definition.widens array local }
{
    matches!(
        (array, local),
        (Kind::Row(Elem::Int), Kind::One(Elem::Float))
    )
}

/// A loop over the items of an array, each of which stands in this local.
pub(crate) fn each_made(
    alloc: Global,
    array: Box<TypedExpr>,
    local: u32,
    widens: bool,
    body: Box<TypedStmt>,
    place: Place,
) -> Result<Box<TypedStmt>, TypeFault>
    ensures made { IfOk result (λ x. typed_stmt x.value
        ≡ typed.ForEach (typed_expr array.value) local widens (typed_stmt body.value) place) }
    ensures memory { IfErr result (λ why. why ≡ memory out_of_memory) }
{
    let made = TypedStmt::ForEach {
        array: Box::into_inner(array),
        local,
        widens,
        body,
        place,
    };
    boxed(alloc, made)
}
