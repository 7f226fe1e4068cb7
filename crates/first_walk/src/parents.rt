//! The parents of a file's classes.
ghost use Rattle.std.specs.Prelude.{◌≡◌, ◌+◌, ◌<◌, ◌^◌, length, slice_set, OnOk, IfErr};
ghost use Rattle.ck_syntax.specs.Size.{items_size};
ghost use Rattle.ck_syntax.specs.Tree.{class_item, no_items};
ghost use Rattle.ck_syntax.specs.View.{view_class, view_item, items_of};
ghost use Rattle.type_table.specs.Answer.{gives, fault, IsFault};
ghost use Rattle.first_walk.specs.FirstWalk.{extended, check_built_in as built_in_checked, with_parent, with_parents, check_line as line_checked, check_extended as extended_checked, check_parent as parent_checked, check_parents as parents_checked};
ghost use Rattle.first_walk.specs.Room.{HasNumber, AreNumbered};

use crate::classes::next_class;
use ck_base::Text;
use ck_syntax::{ClassDef, Item};
use ck_values::Elem;
use fixed_point::Memory;
use std::alloc::Global;
use type_rules::is_below;
use type_table::{BuiltInName, FaultKind, Table, TypeFault, built_in, wrong};

/// The class that is extended; `Object` where there is none.
fn extended(table: &Table, file: u32, parent: &Option<Text>) -> u32
    ensures { result ≡ extended table.now file parent.now }
{
    match parent {
        Some(name) => table.class(file, name).unwrap_or(0),
        None => 0,
    }
}

/// A class stands below this one.
fn set_parent(table: &mut Table, class: u32, parent: u32)
    ensures { table.new ≡ record table.old { parents = slice_set table.old.parents class parent } }
{
    table.parents.set(class, parent);
}

/// The parent of an item that is a class, of this number.
fn enter_parent(table: &mut Table, file: u32, class: u32, item: &Item)
    requires numbered { HasNumber table.old file class (view_item item.now) }
    ensures { table.new ≡ with_parent file table.old (view_item item.now) }
{
    if let Item::Class(def) = item {
        let parent = extended(table, file, &def.parent);
        set_parent(table, class, parent);
    }
}

/// All parents of a file's classes, which are numbered from the first on.
pub(crate) fn enter_parents(table: &mut Table, file: u32, first: u32, items: &[Item])
    requires numbered { AreNumbered table.old file first items.now }
    requires few { first + items_size (items_of no_items items.now) < 2 ^ 32 }
    ensures { table.new ≡ with_parents file table.old (items_of no_items items.now) }
{
    let mut class = first;
    for item in items {
        enter_parent(table, file, class, item);
        class = next_class(class, item);
    }
}

/// Finds the classes below each one from this on.
pub(crate) fn find_below(alloc: Global, table: &mut Table, first: u32) -> Result<(), Memory>
    requires few { length table.old.parents < 2 ^ 32 }
    ensures { table.new ≡ table.old }
{
    table.parents.find_below(alloc, first)
}

/// Whether a class has no more ancestors than it may. So it isn't one of its own.
fn check_line(table: &Table, file: u32, line: u32, class: u32) -> Result<(), TypeFault>
    ensures fine { OnOk result (line_checked table.now file line class ≡ gives table.now) }
    ensures refused { IfErr result (λ why. line_checked table.now file line class ≡ fault why) }
{
    if is_below(table.parents(), class, 0) {
        Ok(())
    } else {
        Err(wrong(file, line, FaultKind::BadClass))
    }
}

/// Whether a class may extend what has this name and is no class of a text. Of what is built in,
/// classes alone may be extended.
fn check_built_in(table: &Table, file: u32, line: u32, name: &Text) -> Result<(), TypeFault>
    ensures fine { OnOk result
        (built_in_checked table.now file line name.now ≡ gives table.now) }
    ensures refused { IfErr result
        (λ why. built_in_checked table.now file line name.now ≡ fault why) }
{
    match built_in(name.bytes()) {
        Some(BuiltInName::Elem(Elem::Class(_))) => Ok(()),
        Some(_) => Err(wrong(file, line, FaultKind::BadClass)),
        None => Err(wrong(file, line, FaultKind::UnknownName)),
    }
}

/// Whether a class may extend what its text names. Where that is a class of a text, it was found
/// and set.
fn check_extended(
    table: &Table,
    file: u32,
    line: u32,
    class: u32,
    name: &Text,
) -> Result<(), TypeFault>
    ensures fine { OnOk result
        (extended_checked table.now file line class name.now ≡ gives table.now) }
    ensures refused { IfErr result
        (λ why. extended_checked table.now file line class name.now ≡ fault why) }
{
    if table.parent(class) == 0 {
        return check_built_in(table, file, line, name);
    }
    check_line(table, file, line, class)
}

/// Whether a class of the text, of this number, may have its parent.
fn check_class(table: &Table, file: u32, class: u32, def: &ClassDef) -> Result<(), TypeFault>
    requires numbered { HasNumber table.now file class (class_item (view_class def.now)) }
    ensures fine { OnOk result
        (parent_checked file table.now (class_item (view_class def.now)) ≡ gives table.now) }
    ensures refused { IfErr result
        (λ why. parent_checked file table.now (class_item (view_class def.now)) ≡ fault why) }
{
    match &def.parent {
        Some(parent) => check_extended(table, file, def.line, class, parent),
        None => Ok(()),
    }
}

/// Whether an item that is a class, of this number, may have its parent.
fn check_parent(table: &Table, file: u32, class: u32, item: &Item) -> Result<(), TypeFault>
    requires numbered { HasNumber table.now file class (view_item item.now) }
    ensures fine { OnOk result
        (parent_checked file table.now (view_item item.now) ≡ gives table.now) }
    ensures refused { IfErr result
        (λ why. parent_checked file table.now (view_item item.now) ≡ fault why) }
{
    match item {
        Item::Class(def) => check_class(table, file, class, def),
        _ => Ok(()),
    }
}

/// Whether all classes of a file, which are numbered from the first on, may have their parents.
pub(crate) fn check_parents(
    table: &Table,
    file: u32,
    first: u32,
    items: &[Item],
) -> Result<(), TypeFault>
    requires numbered { AreNumbered table.now file first items.now }
    requires few { first + items_size (items_of no_items items.now) < 2 ^ 32 }
    ensures fine { OnOk result
        (parents_checked file table.now (items_of no_items items.now) ≡ gives table.now) }
    ensures refused { IfErr result
        (λ why. parents_checked file table.now (items_of no_items items.now) ≡ fault why) }
{
    let mut class = first;
    for item in items {
        check_parent(table, file, class, item)?;
        class = next_class(class, item);
    }
    Ok(())
}
