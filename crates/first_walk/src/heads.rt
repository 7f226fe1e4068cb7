//! The types of functions, as the text has them.
ghost use Rattle.std.specs.Prelude.{◌≡◌, ◌+◌, ◌<◌, ◌^◌, OnOk, IfOk, IfErr};
ghost use Rattle.ck_syntax.specs.Size.{items_size};
ghost use Rattle.ck_syntax.specs.Tree.{no_params, no_members, no_items};
ghost use Rattle.ck_syntax.specs.View.{params_of, view_fun, view_member, members_of, view_item, items_of};
ghost use Rattle.type_table.specs.Table.{class_of};
ghost use Rattle.type_table.specs.Names.{and_first};
ghost use Rattle.fixed_point.specs.Wanting.{out_of_memory};
ghost use Rattle.type_table.specs.declared.fault.TypeFault.TheVariants.{Memory as memory};
ghost use Rattle.first_walk.specs.FirstWalk.{param_kind as kind_of_param, param_kinds as kinds_of_params, names_unknown, has_unknown, head_of as types_of, with_class, with_head, with_heads_of, with_item_heads, with_heads};
ghost use Rattle.first_walk.specs.Room.{HasNumber, AreNumbered};
ghost use Rattle.first_walk.specs.Steps.{result_of, says_static, has_unknown_result};

use crate::classes::next_class;
use ck_base::List;
use ck_syntax::{FunDef, FunHead, Item, Member, Param};
use ck_values::Kind;
use std::alloc::Global;
use type_table::{Head, Table, TypeFault, result_kind, value_kind};

/// The type of a parameter, where it is one.
#[tactic(auto, using(crate::proofs::ManyBrackets::too_many))]
fn param_kind(table: &Table, file: u32, param: &Param) -> Option<Kind>
    ensures { result ≡ kind_of_param table.now file param.now }
{
    let named = table.named(file, &param.kind.base);
    match param.kind.brackets.checked_add(param.brackets) {
        Some(brackets) => value_kind(named, brackets),
        None => None,
    }
}

/// The types of parameters, where each is one.
fn param_kinds(
    alloc: Global,
    table: &Table,
    file: u32,
    params: &[Param],
) -> Result<Option<List<Kind>>, TypeFault>
    ensures made { IfOk result
        (λ kinds. kinds_of_params table.now file (params_of no_params params.now) ≡ kinds) }
    ensures memory { IfErr result (λ why. why ≡ memory out_of_memory) }
{
    let mut kinds = Vec::new(alloc);
    for param in params {
        match param_kind(table, file, param) {
            Some(kind) => kinds.push(kind)?,
            None => return Ok(None),
        }
    }
    Ok(Some(List::from_vec(kinds)))
}

/// The type of a function's result, where it is one; a constructor has none.
fn result_of(table: &Table, file: u32, head: &FunHead) -> Option<Kind>
    ensures { result ≡ result_of table.now file head.now }
{
    match head {
        FunHead::Named { result, .. } => {
            result_kind(table.named(file, &result.base), result.brackets)
        }
        FunHead::Construct => Some(Kind::Void),
    }
}

/// Whether a function is static; a constructor isn't.
fn is_static(head: &FunHead) -> bool
    ensures { result ≡ says_static head.now }
{
    match head {
        FunHead::Named { is_static, .. } => *is_static,
        FunHead::Construct => false,
    }
}

/// The types of a function, where each is one.
#[tactic(auto, using(crate::proofs::MemberWalks::headed_is))]
pub(crate) fn head_of(
    alloc: Global,
    table: &Table,
    file: u32,
    fun: &FunDef,
) -> Result<Option<Head>, TypeFault>
    ensures made { IfOk result (λ head. types_of table.now file (view_fun fun.now) ≡ head) }
    ensures memory { IfErr result (λ why. why ≡ memory out_of_memory) }
{
    let Some(params) = param_kinds(alloc, table, file, fun.params.items())? else {
        return Ok(None);
    };
    let Some(result) = result_of(table, file, &fun.head) else {
        return Ok(None);
    };
    Ok(Some(Head {
        params,
        result,
        is_static: is_static(&fun.head),
    }))
}

/// Whether the type of a parameter has an unknown name.
fn names_unknown(table: &Table, file: u32, params: &[Param]) -> bool
    ensures { result ≡ names_unknown table.now file (params_of no_params params.now) }
{
    for param in params {
        if table.named(file, &param.kind.base).is_unknown() {
            return true;
        }
    }
    false
}

/// Whether a function's result has an unknown name.
fn has_unknown_result(table: &Table, file: u32, head: &FunHead) -> bool
    ensures { result ≡ has_unknown_result table.now file head.now }
{
    match head {
        FunHead::Named { result, .. } => table.named(file, &result.base).is_unknown(),
        FunHead::Construct => false,
    }
}

/// Whether a type of the function has an unknown name.
#[tactic(auto, using(crate::proofs::MemberWalks::unknown_is))]
pub(crate) fn has_unknown(table: &Table, file: u32, fun: &FunDef) -> bool
    ensures { result ≡ has_unknown table.now file (view_fun fun.now) }
{
    has_unknown_result(table, file, &fun.head) || names_unknown(table, file, fun.params.items())
}

/// The types of a class's function by its name.
fn add_head(
    alloc: Global,
    table: &mut Table,
    class: u32,
    name: &[u8],
    head: Option<Head>,
) -> Result<(), TypeFault>
    ensures added { OnOk result
        (table.new
        ≡ with_class table.old class
        (record (class_of table.old class)
        { heads = and_first name.now head (class_of table.old class).heads })) }
    ensures memory { IfErr result (λ why. why ≡ memory out_of_memory) }
{
    table.classes.add_head(alloc, class, name, head)
}

/// The types of a member that is a function.
fn enter_head(
    alloc: Global,
    table: &mut Table,
    file: u32,
    class: u32,
    member: &Member,
) -> Result<(), TypeFault>
    ensures added { OnOk result
        (table.new ≡ with_head file class table.old (view_member member.now)) }
    ensures memory { IfErr result (λ why. why ≡ memory out_of_memory) }
{
    match member {
        Member::Fun(fun) => {
            let FunHead::Named { name, .. } = &fun.head else {
                return Ok(());
            };
            let head = head_of(alloc, table, file, fun)?;
            add_head(alloc, table, class, name.bytes(), head)
        }
        Member::Stmt(_) => Ok(()),
    }
}

/// The types of all functions of a class.
fn enter_heads_of(
    alloc: Global,
    table: &mut Table,
    file: u32,
    class: u32,
    members: &[Member],
) -> Result<(), TypeFault>
    ensures added { OnOk result
        (table.new ≡ with_heads_of file class table.old (members_of no_members members.now)) }
    ensures memory { IfErr result (λ why. why ≡ memory out_of_memory) }
{
    for member in members {
        enter_head(alloc, table, file, class, member)?;
    }
    Ok(())
}

/// The types of the functions of an item that is a class, of this number.
fn enter_item_heads(
    alloc: Global,
    table: &mut Table,
    file: u32,
    class: u32,
    item: &Item,
) -> Result<(), TypeFault>
    requires numbered { HasNumber table.old file class (view_item item.now) }
    ensures added { OnOk result
        (table.new ≡ with_item_heads file table.old (view_item item.now)) }
    ensures memory { IfErr result (λ why. why ≡ memory out_of_memory) }
{
    match item {
        Item::Class(def) => enter_heads_of(alloc, table, file, class, def.members.items()),
        _ => Ok(()),
    }
}

/// The types of the functions of all classes of a file, which are numbered from the first on.
pub(crate) fn enter_heads(
    alloc: Global,
    table: &mut Table,
    file: u32,
    first: u32,
    items: &[Item],
) -> Result<(), TypeFault>
    requires numbered { AreNumbered table.old file first items.now }
    requires few { first + items_size (items_of no_items items.now) < 2 ^ 32 }
    ensures added { OnOk result
        (table.new ≡ with_heads file table.old (items_of no_items items.now)) }
    ensures memory { IfErr result (λ why. why ≡ memory out_of_memory) }
{
    let mut class = first;
    for item in items {
        enter_item_heads(alloc, table, file, class, item)?;
        class = next_class(class, item);
    }
    Ok(())
}
