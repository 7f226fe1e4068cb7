//! Files without a form that isn't run yet.
ghost use Rattle.std.specs.Prelude.{◌≡◌};
ghost use Rattle.ck_syntax.specs.Tree.{no_members, no_items};
ghost use Rattle.ck_syntax.specs.View.{view_fun, view_member, members_of, view_item, items_of, view_file};
ghost use Rattle.built_forms.specs.Built.{fun_built, member_built, members_built, item_built, is_built};

use crate::stmts::{are_stmts_built, is_stmt_built};
use ck_syntax::{File, FunDef, FunHead, Item, Member};

/// Whether each form of a function is run.
fn is_fun_built(fun: &FunDef) -> bool
    ensures { result ≡ fun_built (view_fun fun.now) }
{
    match &fun.head {
        FunHead::Named { .. } => are_stmts_built(fun.body.items()),
        FunHead::Construct => false,
    }
}

/// Whether each form of a member is run.
fn is_member_built(member: &Member) -> bool
    ensures { result ≡ member_built (view_member member.now) }
{
    match member {
        Member::Fun(fun) => is_fun_built(fun),
        Member::Stmt(s) => is_stmt_built(s),
    }
}

/// Whether each form of these members is run.
fn are_members_built(all: &[Member]) -> bool
    ensures { result ≡ members_built (members_of no_members all.now) }
{
    for member in all {
        if !is_member_built(member) {
            return false;
        }
    }
    true
}

/// Whether each form of an item is run.
fn is_item_built(item: &Item) -> bool
    ensures { result ≡ item_built (view_item item.now) }
{
    match item {
        Item::Class(class) => are_members_built(class.members.items()),
        Item::Fun(fun) => is_fun_built(fun),
        Item::Stmt(s) => is_stmt_built(s),
    }
}

/// Whether each form of a file is run.
pub fn is_built(file: &File) -> bool
    ensures { result ≡ is_built (view_file file.now) }
{
    for item in file.items.items() {
        if !is_item_built(item) {
            return false;
        }
    }
    true
}
