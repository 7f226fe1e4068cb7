//! The first walk of a file: its classes are entered in text order, then their parents, then
//! members, functions and file variables in text order.
ghost use Rattle.std.specs.Prelude.{◌≡◌, ◌+◌, ◌*◌, ◌<◌, ◌≤◌, ◌^◌, length, Some, OnOk, IfErr};
ghost use Rattle.ck_base.specs.declared.limits.TheConstants.{MAX_FILE_TOKENS};
ghost use Rattle.ck_syntax.specs.Size.{member_size, members_size, class_size};
ghost use Rattle.ck_syntax.specs.Size.{item_size, items_size, file_size};
ghost use Rattle.ck_syntax.specs.Tree.{no_members, no_items, class_item};
ghost use Rattle.ck_syntax.specs.View.{view_class, view_member, members_of, view_item, items_of, view_file};
ghost use Rattle.type_table.specs.Answer.{gives, fault, IsFault};
ghost use Rattle.type_table.specs.Table.{class_of};
ghost use Rattle.fixed_point.specs.Wanting.{out_of_memory};
ghost use Rattle.type_table.specs.declared.fault.TypeFault.TheVariants.{Memory as memory};
ghost use Rattle.first_walk.specs.FirstWalk.{with_class, enter_member as member_entered, enter_members as members_entered, has_statement, with_body, enter_item as item_entered, enter_items as items_entered, entered};
ghost use Rattle.first_walk.specs.Room.{entries, declared, FileReady, HasRoom, HaveRoom};
ghost use Rattle.first_walk.specs.Room.{HasNumber, AreNumbered};

use crate::classes::{begin, enter_classes, next_class};
use crate::funs::{enter_fun, enter_method};
use crate::heads::enter_heads;
use crate::parents::{check_parents, enter_parents, find_below};
use crate::statements::enter_stmt;
use ck_syntax::{ClassDef, File, Item, Member};
use std::alloc::Global;
use type_table::{Head, Table, TypeFault, number};

/// Whether a statement stands in these braces.
pub fn have_statement(members: &[Member]) -> bool
    ensures { result ≡ has_statement (members_of no_members members.now) }
{
    for member in members {
        match member {
            Member::Fun(_) => {}
            Member::Stmt(_) => return true,
        }
    }
    false
}

/// A member of a class.
fn enter_member(
    alloc: Global,
    table: &mut Table,
    file: u32,
    class: u32,
    member: &Member,
) -> Result<(), TypeFault>
    requires room { entries table.old + member_size (view_member member.now) < 2 ^ 32 }
    requires own { declared class table.old + member_size (view_member member.now) ≤ MAX_FILE_TOKENS }
    ensures entered { OnOk result
        (member_entered file class table.old (view_member member.now) ≡ gives table.new) }
    ensures refused { IfErr result
        (λ why. IsFault why →
        member_entered file class table.old (view_member member.now) ≡ fault why) }
{
    match member {
        Member::Fun(fun) => enter_method(alloc, table, file, class, fun),
        Member::Stmt(s) => enter_stmt(alloc, table, file, Some(class), s),
    }
}

/// The members of a class.
fn enter_members(
    alloc: Global,
    table: &mut Table,
    file: u32,
    class: u32,
    members: &[Member],
) -> Result<(), TypeFault>
    requires room { entries table.old + members_size (members_of no_members members.now) < 2 ^ 32 }
    requires own { declared class table.old
        + members_size (members_of no_members members.now) ≤ MAX_FILE_TOKENS }
    ensures entered { OnOk result
        (members_entered file class table.old (members_of no_members members.now)
        ≡ gives table.new) }
    ensures refused { IfErr result
        (λ why. IsFault why →
        members_entered file class table.old (members_of no_members members.now)
        ≡ fault why) }
{
    for member in members {
        enter_member(alloc, table, file, class, member)?;
    }
    Ok(())
}

/// A class has this function of the statements in its braces.
fn set_body(table: &mut Table, class: u32, fun: u32)
    ensures { table.new
        ≡ with_class table.old class (record (class_of table.old class) { body = Some fun }) }
{
    table.classes.set_body(class, fun);
}

/// The function of the statements in a class's braces, which comes before its functions.
fn enter_body(
    alloc: Global,
    table: &mut Table,
    class: u32,
    members: &[Member],
) -> Result<(), TypeFault>
    requires few { length table.old.funs < 2 ^ 32 }
    ensures added { OnOk result
        (table.new ≡ with_body table.old class (members_of no_members members.now)) }
    ensures memory { IfErr result (λ why. why ≡ memory out_of_memory) }
{
    if !have_statement(members) {
        return Ok(());
    }
    let fun = number(table.funs.len());
    table.funs.push(Head::plain(alloc, false))?;
    set_body(table, class, fun);
    Ok(())
}

/// A class of the text, of this number.
fn enter_class_members(
    alloc: Global,
    table: &mut Table,
    file: u32,
    class: u32,
    def: &ClassDef,
) -> Result<(), TypeFault>
    requires numbered { HasNumber table.old file class (class_item (view_class def.now)) }
    requires room { entries table.old + class_size (view_class def.now) < 2 ^ 32 }
    requires own { HasRoom table.old file (class_size (view_class def.now))
        (class_item (view_class def.now)) }
    ensures entered { OnOk result
        (item_entered file table.old (class_item (view_class def.now)) ≡ gives table.new) }
    ensures refused { IfErr result
        (λ why. IsFault why →
        item_entered file table.old (class_item (view_class def.now)) ≡ fault why) }
{
    enter_body(alloc, table, class, def.members.items())?;
    enter_members(alloc, table, file, class, def.members.items())
}

/// An item of a file. This is its number where it is a class.
fn enter_item(
    alloc: Global,
    table: &mut Table,
    file: u32,
    class: u32,
    item: &Item,
) -> Result<(), TypeFault>
    requires numbered { HasNumber table.old file class (view_item item.now) }
    requires room { entries table.old + item_size (view_item item.now) < 2 ^ 32 }
    requires own { HasRoom table.old file (item_size (view_item item.now)) (view_item item.now) }
    ensures entered { OnOk result
        (item_entered file table.old (view_item item.now) ≡ gives table.new) }
    ensures refused { IfErr result
        (λ why. IsFault why → item_entered file table.old (view_item item.now) ≡ fault why) }
{
    match item {
        Item::Class(def) => enter_class_members(alloc, table, file, class, def),
        Item::Fun(fun) => enter_fun(alloc, table, file, fun),
        Item::Stmt(s) => enter_stmt(alloc, table, file, None, s),
    }
}

/// The items of a file, whose classes are numbered from the first on.
fn enter_items(
    alloc: Global,
    table: &mut Table,
    file: u32,
    first: u32,
    items: &[Item],
) -> Result<(), TypeFault>
    requires numbered { AreNumbered table.old file first items.now }
    requires few { first + items_size (items_of no_items items.now) < 2 ^ 32 }
    requires room { entries table.old + items_size (items_of no_items items.now) < 2 ^ 32 }
    requires own { HaveRoom table.old file (items_size (items_of no_items items.now))
        (items_of no_items items.now) }
    requires ready { FileReady file table.old }
    ensures entered { OnOk result
        (items_entered file table.old (items_of no_items items.now) ≡ gives table.new) }
    ensures refused { IfErr result
        (λ why. IsFault why →
        items_entered file table.old (items_of no_items items.now) ≡ fault why) }
{
    let mut class = first;
    for item in items {
        enter_item(alloc, table, file, class, item)?;
        class = next_class(class, item);
    }
    Ok(())
}

/// Enters all of one file, by both parts of the first walk: its classes with their parents, and then
/// its members, functions and file variables.
///
/// Its number is how many files were entered before, in a table that has at least the built-in
/// classes. It has at most `MAX_FILE_TOKENS` tokens, as one of `MAX_FILE_BYTES` bytes has, and the
/// table has room for two entries more a token. `Typing` is the first fault of this walk; `Memory`
/// comes where memory was wanting. The table is given up after either.
pub fn enter_file(alloc: Global, table: &mut Table, file: u32, raw: &File) -> Result<(), TypeFault>
    requires next { file ≡ length table.old.files }
    requires built_in { 0 < length table.old.classes }
    requires short { file_size (view_file raw.now) ≤ MAX_FILE_TOKENS }
    requires room { entries table.old + 2 * file_size (view_file raw.now) < 2 ^ 32 }
    ensures entered { OnOk result (entered table.old file (view_file raw.now) ≡ gives table.new) }
    ensures refused { IfErr result
        (λ why. IsFault why → entered table.old file (view_file raw.now) ≡ fault why) }
    // its classes are numbered in text order, from how many there were on
    ensures numbered { OnOk result
        (AreNumbered table.new file (length table.old.classes) raw.now.items) }
{
    let items = raw.items.items();
    let first = number(table.classes.len());
    begin(alloc, table)?;
    enter_classes(alloc, table, file, items)?;
    enter_parents(table, file, first, items);
    check_parents(table, file, first, items)?;
    find_below(alloc, table, first)?;
    enter_heads(alloc, table, file, first, items)?;
    enter_items(alloc, table, file, first, items)
}
