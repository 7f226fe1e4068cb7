//! The classes of a file, entered in text order.
ghost use Rattle.std.specs.Prelude.{◌≡◌, ◌+◌, ◌<◌, ◌^◌, length, OnOk, IfErr};
ghost use Rattle.ck_syntax.specs.Size.{item_size, items_size};
ghost use Rattle.ck_syntax.specs.Tree.{no_items};
ghost use Rattle.ck_syntax.specs.View.{view_class, view_item, items_of};
ghost use Rattle.type_table.specs.Answer.{gives, fault, IsFault};
ghost use Rattle.fixed_point.specs.Wanting.{out_of_memory};
ghost use Rattle.type_table.specs.declared.fault.TypeFault.TheVariants.{Memory as memory};
ghost use Rattle.type_table.specs.Names.{and_first};
ghost use Rattle.type_table.specs.Table.{file_of};
ghost use Rattle.first_walk.specs.FirstWalk.{begun, with_file, with_public, with_new_class, with_class_named, with_item_named, with_classes};
ghost use Rattle.first_walk.specs.Room.{entries, next_class};

use ck_base::Text;
use ck_syntax::{ClassDef, Item};
use std::alloc::Global;
use type_table::{ByName, FaultKind, FileNames, Head, Table, TypeFault, built_in, number, wrong};

/// A file more, with the function of its statements.
pub(crate) fn begin(alloc: Global, table: &mut Table) -> Result<(), TypeFault>
    requires few { length table.old.funs < 2 ^ 32 }
    ensures begun { OnOk result (table.new ≡ begun table.old) }
    ensures memory { IfErr result (λ why. why ≡ memory out_of_memory) }
{
    let main = number(table.funs.len());
    table.funs.push(Head::plain(alloc, true))?;
    table.files.push(FileNames {
        main,
        classes: ByName::new(alloc),
        funs: ByName::new(alloc),
        variables: ByName::new(alloc),
    })?;
    Ok(())
}

/// The number of the next class, after that of an item.
pub fn next_class(class: u32, item: &Item) -> u32
    requires few { class + item_size (view_item item.now) < 2 ^ 32 }
    ensures { result ≡ next_class class (view_item item.now) }
{
    match item {
        Item::Class(_) => class + 1,
        _ => class,
    }
}

/// A public class is known by its name to later files.
fn add_public(
    alloc: Global,
    table: &mut Table,
    is_public: bool,
    name: &[u8],
    class: u32,
) -> Result<(), TypeFault>
    ensures added { OnOk result
        (table.new
        ≡ record table.old { publics = with_public is_public name.now class table.old.publics }) }
    ensures memory { IfErr result (λ why. why ≡ memory out_of_memory) }
{
    if is_public {
        table.publics.add(alloc, name, class)?;
    }
    Ok(())
}

/// The class of a file by its name.
#[tactic(auto, using(type_table::proofs::Changes::set_past))]
fn add_own_class(
    alloc: Global,
    table: &mut Table,
    file: u32,
    name: &[u8],
    class: u32,
) -> Result<(), TypeFault>
    ensures added { OnOk result
        (table.new
        ≡ with_file table.old file
        (record (file_of table.old file)
        { classes = and_first name.now class (file_of table.old file).classes })) }
    ensures memory { IfErr result (λ why. why ≡ memory out_of_memory) }
{
    if file as usize >= table.files.len() {
        return Ok(());
    }
    table.files[file as usize].classes.add(alloc, name, class)
}

/// A class more.
fn add_class(
    alloc: Global,
    table: &mut Table,
    file: u32,
    is_public: bool,
    name: &Text,
) -> Result<(), TypeFault>
    requires few { length table.old.classes < 2 ^ 32 }
    ensures added { OnOk result (table.new ≡ with_new_class table.old file is_public name.now) }
    ensures memory { IfErr result (λ why. why ≡ memory out_of_memory) }
{
    let class = number(table.classes.len());
    let copy = name.try_clone(alloc)?;
    table.classes.add(alloc, file, is_public, copy)?;
    table.parents.push(0)?;
    add_public(alloc, table, is_public, name.bytes(), class)?;
    add_own_class(alloc, table, file, name.bytes(), class)
}

/// A class of the text. No visible class and nothing built in may have its name.
fn enter_class(
    alloc: Global,
    table: &mut Table,
    file: u32,
    class: &ClassDef,
) -> Result<(), TypeFault>
    requires few { length table.old.classes < 2 ^ 32 }
    ensures entered { OnOk result
        (with_class_named file table.old (view_class class.now) ≡ gives table.new) }
    ensures refused { IfErr result
        (λ why. IsFault why →
        with_class_named file table.old (view_class class.now) ≡ fault why) }
{
    let name = &class.name;
    if table.class(file, name).is_some() || built_in(name.bytes()).is_some() {
        return Err(wrong(file, class.line, FaultKind::Duplicate));
    }
    add_class(alloc, table, file, class.is_public, name)
}

/// The class of an item, where it is one.
fn enter_class_of(alloc: Global, table: &mut Table, file: u32, item: &Item) -> Result<(), TypeFault>
    requires few { length table.old.classes < 2 ^ 32 }
    ensures entered { OnOk result
        (with_item_named file table.old (view_item item.now) ≡ gives table.new) }
    ensures refused { IfErr result
        (λ why. IsFault why → with_item_named file table.old (view_item item.now) ≡ fault why) }
{
    match item {
        Item::Class(class) => enter_class(alloc, table, file, class),
        _ => Ok(()),
    }
}

/// All classes of a file.
pub(crate) fn enter_classes(
    alloc: Global,
    table: &mut Table,
    file: u32,
    items: &[Item],
) -> Result<(), TypeFault>
    requires room { entries table.old + items_size (items_of no_items items.now) < 2 ^ 32 }
    ensures entered { OnOk result
        (with_classes file table.old (items_of no_items items.now) ≡ gives table.new) }
    ensures refused { IfErr result
        (λ why. IsFault why →
        with_classes file table.old (items_of no_items items.now) ≡ fault why) }
{
    for item in items {
        enter_class_of(alloc, table, file, item)?;
    }
    Ok(())
}
