//! Functions of files and of classes.
ghost use Rattle.std.specs.Prelude.{◌≡◌, ◌<◌, ◌^◌, true, false, length, OnOk, IfOk, IfErr};
ghost use Rattle.ck_base.specs.declared.limits.TheConstants.{MAX_FILE_TOKENS};
ghost use Rattle.ck_syntax.specs.View.{view_fun};
ghost use Rattle.type_table.specs.Answer.{gives, fault, IsFault};
ghost use Rattle.first_walk.specs.Room.{declared};
ghost use Rattle.type_table.specs.Names.{and_first};
ghost use Rattle.type_table.specs.Table.{class_of, file_of, ancestors, overridden};
ghost use Rattle.fixed_point.specs.Wanting.{out_of_memory};
ghost use Rattle.type_table.specs.declared.fault.TypeFault.TheVariants.{Memory as memory, Typing};
ghost use Rattle.type_table.specs.declared.fault.FaultKind.TheVariants.{UnknownName};
ghost use Rattle.first_walk.specs.FirstWalk.{head_of as types_of, has_unknown as names_unknown, same_kind, same_kinds, same_types, may_override, new_dispatch, old_dispatch, slots_with, with_class, with_dispatch, with_method, enter_beside as entered_beside, enter_method_head as method_head_entered, with_constructor, enter_constructor as constructor_entered, enter_method as method_entered, with_file, with_fun, enter_fun_head as fun_head_entered, refuse_constructor as constructor_refused, enter_fun as fun_entered};

use crate::declarations::{add_member, is_name_taken};
use crate::heads::{has_unknown, head_of};
use ck_syntax::{FunDef, FunHead};
use ck_values::Kind;
use std::alloc::Global;
use type_rules::is_same;
use type_table::{Count, Dispatch, FaultKind, Head, Own, Table, TypeFault, number, wrong};

/// Whether two types are the same.
fn is_same_kind(a: Kind, b: Kind) -> bool
    ensures { result ≡ same_kind a b }
{
    match (a, b) {
        (Kind::Void, Kind::Void) => true,
        (Kind::One(a), Kind::One(b))
        | (Kind::Row(a), Kind::Row(b))
        | (Kind::Grid(a), Kind::Grid(b)) => is_same(a, b),
        _ => false,
    }
}

/// Whether two rows of types are the same.
fn are_same_kinds(a: &[Kind], b: &[Kind]) -> bool
    ensures { result ≡ same_kinds a.now b.now }
{
    if a.len() != b.len() {
        return false;
    }
    for i in 0..a.len() {
        if !is_same_kind(a[i], b[i]) {
            return false;
        }
    }
    true
}

/// Whether two functions take and give the same.
fn have_same_types(a: &Head, b: &Head) -> bool
    ensures { result ≡ same_types a.now b.now }
{
    are_same_kinds(a.params.items(), b.params.items()) && is_same_kind(a.result, b.result)
}

/// Whether a function may stand in the place of another: their types are the same, and neither is
/// static. One whose types are no types is a fault of its own.
fn may_override(head: &Head, old: &Option<Head>) -> bool
    ensures { result ≡ may_override head.now old.now }
{
    match old {
        Some(old) => have_same_types(head, old) && !head.is_static && !old.is_static,
        None => true,
    }
}

/// How a function is called that may override another.
fn old_dispatch(head: &Head) -> Dispatch
    ensures { result ≡ old_dispatch head.now }
{
    if head.is_static {
        Dispatch::Static
    } else {
        Dispatch::Override
    }
}

/// How a new function of a class is called.
fn new_dispatch(table: &Table, class: u32, head: &Head) -> Dispatch
    ensures { result ≡ new_dispatch (class_of table.now class) head.now }
{
    if head.is_static {
        return Dispatch::Static;
    }
    Dispatch::NewSlot(Count::of(table.own_slots(class)))
}

/// How many slots a class has with this function.
fn slots_with(table: &Table, class: u32, dispatch: &Dispatch) -> Count
    requires own { declared class table.now < MAX_FILE_TOKENS }
    ensures { result ≡ slots_with (class_of table.now class) dispatch.now }
{
    let slots = table.own_slots(class);
    match dispatch {
        Dispatch::NewSlot(_) => Count::of(slots + 1),
        _ => Count::of(slots),
    }
}

/// A class adds so many slots.
fn set_slots(table: &mut Table, class: u32, slots: Count)
    ensures { table.new
        ≡ with_class table.old class (record (class_of table.old class) { slots = slots }) }
{
    table.classes.set_slots(class, slots);
}

/// A function of a class more.
fn add_dispatch(
    table: &mut Table,
    class: u32,
    head: Head,
    dispatch: &Dispatch,
) -> Result<(), TypeFault>
    requires own { declared class table.old < MAX_FILE_TOKENS }
    ensures added { OnOk result (table.new ≡ with_dispatch table.old class head dispatch.now) }
    ensures memory { IfErr result (λ why. why ≡ memory out_of_memory) }
{
    let slots = slots_with(table, class, dispatch);
    table.funs.push(head)?;
    set_slots(table, class, slots);
    Ok(())
}

/// A function of a class more, with its name.
fn add_method(
    alloc: Global,
    table: &mut Table,
    class: u32,
    name: &[u8],
    head: Head,
    dispatch: Dispatch,
) -> Result<(), TypeFault>
    requires few { length table.old.funs < 2 ^ 32 }
    requires own { declared class table.old < MAX_FILE_TOKENS }
    ensures added { OnOk result (table.new ≡ with_method table.old class name.now head dispatch) }
    ensures memory { IfErr result (λ why. why ≡ memory out_of_memory) }
{
    let fun = number(table.funs.len());
    add_dispatch(table, class, head, &dispatch)?;
    add_member(alloc, table, class, name, Own::Fun { fun, dispatch })
}

/// A function of a class, beside those that its ancestors have.
fn enter_beside(
    alloc: Global,
    table: &mut Table,
    file: u32,
    line: u32,
    class: u32,
    name: &[u8],
    head: Head,
) -> Result<(), TypeFault>
    requires few { length table.old.funs < 2 ^ 32 }
    requires own { declared class table.old < MAX_FILE_TOKENS }
    ensures entered { OnOk result
        (entered_beside table.old file line class name.now head
        (overridden table.old (ancestors table.old class) name.now) ≡ gives table.new) }
    ensures refused { IfErr result
        (λ why. IsFault why →
        entered_beside table.old file line class name.now head
        (overridden table.old (ancestors table.old class) name.now) ≡ fault why) }
{
    if let Some(old) = table.overridden(class, name) {
        if !may_override(&head, old) {
            return Err(wrong(file, line, FaultKind::BadClass));
        }
        let dispatch = old_dispatch(&head);
        return add_method(alloc, table, class, name, head, dispatch);
    }
    let dispatch = new_dispatch(table, class, &head);
    add_method(alloc, table, class, name, head, dispatch)
}

/// A function of a class, where its types are types.
fn enter_method_head(
    alloc: Global,
    table: &mut Table,
    file: u32,
    line: u32,
    class: u32,
    name: &[u8],
    head: Option<Head>,
) -> Result<(), TypeFault>
    requires few { length table.old.funs < 2 ^ 32 }
    requires own { declared class table.old < MAX_FILE_TOKENS }
    ensures entered { OnOk result
        (method_head_entered table.old file line class name.now head ≡ gives table.new) }
    ensures refused { IfErr result
        (λ why. IsFault why →
        method_head_entered table.old file line class name.now head ≡ fault why) }
{
    let Some(head) = head else {
        return Err(wrong(file, line, FaultKind::Mismatch));
    };
    if table.is_event_call(class, name) {
        return Err(wrong(file, line, FaultKind::BadClass));
    }
    enter_beside(alloc, table, file, line, class, name, head)
}

/// The types of a function, where each is one. `UnknownName` comes where one of them has an unknown
/// name.
fn known_head(
    alloc: Global,
    table: &Table,
    file: u32,
    fun: &FunDef,
) -> Result<Option<Head>, TypeFault>
    ensures head { IfOk result (λ head. types_of table.now file (view_fun fun.now) ≡ head) }
    ensures known { OnOk result (names_unknown table.now file (view_fun fun.now) ≡ false) }
    ensures unknown { IfErr result (λ why. IsFault why →
        names_unknown table.now file (view_fun fun.now) ≡ true) }
    ensures refused { IfErr result (λ why. IsFault why →
        why ≡ Typing file fun.now.line UnknownName) }
{
    match head_of(alloc, table, file, fun)? {
        Some(head) => Ok(Some(head)),
        None if has_unknown(table, file, fun) => {
            Err(wrong(file, fun.line, FaultKind::UnknownName))
        }
        None => Ok(None),
    }
}

/// A class has this constructor of its own.
fn set_constructor(table: &mut Table, class: u32, fun: u32)
    ensures { table.new
        ≡ with_class table.old class
        (record (class_of table.old class) { constructor = Some fun }) }
{
    table.classes.set_constructor(class, fun);
}

/// The constructor of a class.
fn add_constructor(table: &mut Table, class: u32, head: Head) -> Result<(), TypeFault>
    requires few { length table.old.funs < 2 ^ 32 }
    ensures added { OnOk result (table.new ≡ with_constructor table.old class head) }
    ensures memory { IfErr result (λ why. why ≡ memory out_of_memory) }
{
    let fun = number(table.funs.len());
    table.funs.push(head)?;
    set_constructor(table, class, fun);
    Ok(())
}

/// The constructor of a class, which has at most one of its own.
fn enter_constructor(
    table: &mut Table,
    file: u32,
    line: u32,
    class: u32,
    head: Option<Head>,
) -> Result<(), TypeFault>
    requires few { length table.old.funs < 2 ^ 32 }
    ensures entered { OnOk result
        (constructor_entered table.old file line class head ≡ gives table.new) }
    ensures refused { IfErr result
        (λ why. IsFault why → constructor_entered table.old file line class head ≡ fault why) }
{
    if table.own_constructor(class).is_some() {
        return Err(wrong(file, line, FaultKind::Duplicate));
    }
    match head {
        Some(head) => add_constructor(table, class, head),
        None => Err(wrong(file, line, FaultKind::Mismatch)),
    }
}

/// A function of a class.
pub(crate) fn enter_method(
    alloc: Global,
    table: &mut Table,
    file: u32,
    class: u32,
    fun: &FunDef,
) -> Result<(), TypeFault>
    requires few { length table.old.funs < 2 ^ 32 }
    requires own { declared class table.old < MAX_FILE_TOKENS }
    ensures entered { OnOk result
        (method_entered table.old file class (view_fun fun.now) ≡ gives table.new) }
    ensures refused { IfErr result
        (λ why. IsFault why →
        method_entered table.old file class (view_fun fun.now) ≡ fault why) }
{
    let head = known_head(alloc, table, file, fun)?;
    let FunHead::Named { name, .. } = &fun.head else {
        return enter_constructor(table, file, fun.line, class, head);
    };
    if table.is_member_taken(class, name.bytes(), true) {
        return Err(wrong(file, fun.line, FaultKind::Duplicate));
    }
    enter_method_head(alloc, table, file, fun.line, class, name.bytes(), head)
}

/// The function of a file by its name.
#[tactic(auto, using(type_table::proofs::Changes::set_past))]
fn add_own_fun(
    alloc: Global,
    table: &mut Table,
    file: u32,
    name: &[u8],
    fun: u32,
) -> Result<(), TypeFault>
    ensures added { OnOk result
        (table.new
        ≡ with_file table.old file
        (record (file_of table.old file)
        { funs = and_first name.now fun (file_of table.old file).funs })) }
    ensures memory { IfErr result (λ why. why ≡ memory out_of_memory) }
{
    if file as usize >= table.files.len() {
        return Ok(());
    }
    table.files[file as usize].funs.add(alloc, name, fun)
}

/// A function of a file more.
fn add_fun(
    alloc: Global,
    table: &mut Table,
    file: u32,
    name: &[u8],
    head: Head,
) -> Result<(), TypeFault>
    requires few { length table.old.funs < 2 ^ 32 }
    ensures added { OnOk result (table.new ≡ with_fun table.old file name.now head) }
    ensures memory { IfErr result (λ why. why ≡ memory out_of_memory) }
{
    let fun = number(table.funs.len());
    table.funs.push(head)?;
    add_own_fun(alloc, table, file, name, fun)
}

/// A function of a file, where its types are types. Only members are static.
fn enter_fun_head(
    alloc: Global,
    table: &mut Table,
    file: u32,
    line: u32,
    name: &[u8],
    head: Option<Head>,
) -> Result<(), TypeFault>
    requires few { length table.old.funs < 2 ^ 32 }
    ensures entered { OnOk result
        (fun_head_entered table.old file line name.now head ≡ gives table.new) }
    ensures refused { IfErr result
        (λ why. IsFault why → fun_head_entered table.old file line name.now head ≡ fault why) }
{
    let Some(head) = head else {
        return Err(wrong(file, line, FaultKind::Mismatch));
    };
    if head.is_static {
        return Err(wrong(file, line, FaultKind::BadPlace));
    }
    add_fun(alloc, table, file, name, head)
}

/// Why a constructor outside a class is refused: it stands in a class, and what is wrong with its
/// types comes first.
fn refused_constructor(file: u32, line: u32, head: &Option<Head>) -> TypeFault
    ensures { constructor_refused file line head.now ≡ fault result }
{
    match head {
        Some(_) => wrong(file, line, FaultKind::BadPlace),
        None => wrong(file, line, FaultKind::Mismatch),
    }
}

/// A function of a file.
pub(crate) fn enter_fun(
    alloc: Global,
    table: &mut Table,
    file: u32,
    fun: &FunDef,
) -> Result<(), TypeFault>
    requires few { length table.old.funs < 2 ^ 32 }
    ensures entered { OnOk result
        (fun_entered table.old file (view_fun fun.now) ≡ gives table.new) }
    ensures refused { IfErr result
        (λ why. IsFault why → fun_entered table.old file (view_fun fun.now) ≡ fault why) }
{
    let head = known_head(alloc, table, file, fun)?;
    let FunHead::Named { name, .. } = &fun.head else {
        return Err(refused_constructor(file, fun.line, &head));
    };
    if is_name_taken(table, file, name) {
        return Err(wrong(file, fun.line, FaultKind::Duplicate));
    }
    enter_fun_head(alloc, table, file, fun.line, name.bytes(), head)
}
