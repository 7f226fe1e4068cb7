//! Variables and fields: all that stand in no block, in text order.
ghost use Rattle.std.specs.Prelude.{◌≡◌, ◌<◌, ◌^◌, ◌∷◌, ◌++◌, [], length, Some, None, OnOk, IfErr};
ghost use Rattle.ck_base.specs.declared.limits.TheConstants.{MAX_FILE_TOKENS};
ghost use Rattle.ck_syntax.specs.View.{view_declr};
ghost use Rattle.type_table.specs.Types.{written_kind};
ghost use Rattle.type_table.specs.Answer.{gives, fault, IsFault};
ghost use Rattle.first_walk.specs.Room.{declared, declared_by};
ghost use Rattle.type_table.specs.Names.{and_first};
ghost use Rattle.type_table.specs.Table.{class_of, file_of};
ghost use Rattle.fixed_point.specs.Wanting.{out_of_memory};
ghost use Rattle.type_table.specs.declared.fault.TypeFault.TheVariants.{Memory as memory};
ghost use Rattle.first_walk.specs.FirstWalk.{is_name_taken, is_taken, with_member, with_file, with_class, next_static, with_variable, with_static, with_field, enter_of_kind as kind_entered, is_misplaced, with_auto, enter_written as written_entered, enter_declared as declared_entered};

use ck_base::Text;
use ck_syntax::{DeclHead, Declarator, DeclaratorTail};
use ck_values::Kind;
use std::alloc::Global;
use type_table::{
    Count, FaultKind, Named, Own, Table, TypeFault, Variable, declared_kind, made_kind,
    may_be_static, number, wrong,
};

/// Whether a class, function or variable of the file has this name already.
pub(crate) fn is_name_taken(table: &Table, file: u32, name: &Text) -> bool
    ensures { result ≡ is_name_taken table.now file name.now }
{
    table.own_class(file, name.bytes()).is_some()
        || table.fun(file, name).is_some()
        || table.variable(file, name).is_some()
}

/// Whether who declares has this name already: a class, or the file itself.
fn is_taken(table: &Table, file: u32, owner: Option<u32>, name: &Text) -> bool
    ensures { result ≡ is_taken table.now file owner name.now }
{
    match owner {
        Some(class) => table.is_member_taken(class, name.bytes(), false),
        None => is_name_taken(table, file, name),
    }
}

/// A class has one member more.
pub(crate) fn add_member(
    alloc: Global,
    table: &mut Table,
    class: u32,
    name: &[u8],
    own: Own,
) -> Result<(), TypeFault>
    ensures added { OnOk result (table.new ≡ with_member table.old class name.now own) }
    ensures memory { IfErr result (λ why. why ≡ memory out_of_memory) }
{
    table.classes.add_own(alloc, class, name, own)
}

/// The next file variable or static member.
fn next_static(table: &Table, kind: Kind) -> Variable
    requires few { length table.now.statics < 2 ^ 32 }
    ensures { result ≡ next_static table.now kind }
{
    Variable {
        index: number(table.statics.len()),
        kind,
    }
}

/// The variable of a file by its name.
#[tactic(auto, using(type_table::proofs::Changes::set_past))]
fn add_own_variable(
    alloc: Global,
    table: &mut Table,
    file: u32,
    name: &[u8],
    index: u32,
) -> Result<(), TypeFault>
    ensures added { OnOk result
        (table.new
        ≡ with_file table.old file
        (record (file_of table.old file)
        { variables = and_first name.now index (file_of table.old file).variables })) }
    ensures memory { IfErr result (λ why. why ≡ memory out_of_memory) }
{
    if file as usize >= table.files.len() {
        return Ok(());
    }
    table.files[file as usize].variables.add(alloc, name, index)
}

/// A file variable more.
fn add_variable(
    alloc: Global,
    table: &mut Table,
    file: u32,
    name: &[u8],
    kind: Kind,
) -> Result<(), TypeFault>
    requires few { length table.old.statics < 2 ^ 32 }
    ensures added { OnOk result (table.new ≡ with_variable table.old file name.now kind) }
    ensures memory { IfErr result (λ why. why ≡ memory out_of_memory) }
{
    let index = number(table.statics.len());
    table.statics.push(kind)?;
    add_own_variable(alloc, table, file, name, index)
}

/// A static member more.
fn add_static(
    alloc: Global,
    table: &mut Table,
    class: u32,
    name: &[u8],
    kind: Kind,
) -> Result<(), TypeFault>
    requires few { length table.old.statics < 2 ^ 32 }
    ensures added { OnOk result (table.new ≡ with_static table.old class name.now kind) }
    ensures memory { IfErr result (λ why. why ≡ memory out_of_memory) }
{
    let variable = next_static(table, kind);
    table.statics.push(kind)?;
    add_member(alloc, table, class, name, Own::Static(variable))
}

/// A field of a class itself.
fn add_own_field(table: &mut Table, class: u32, kind: Kind) -> Result<(), TypeFault>
    requires own { declared class table.old < MAX_FILE_TOKENS }
    ensures added { OnOk result
        (table.new
        ≡ with_class table.old class
        (record (class_of table.old class)
        { fields = (class_of table.old class).fields ++ kind ∷ [] })) }
    ensures memory { IfErr result (λ why. why ≡ memory out_of_memory) }
{
    table.classes.add_field(class, kind)
}

/// A field more.
fn add_field(
    alloc: Global,
    table: &mut Table,
    class: u32,
    name: &[u8],
    kind: Kind,
) -> Result<(), TypeFault>
    requires own { declared class table.old < MAX_FILE_TOKENS }
    ensures added { OnOk result (table.new ≡ with_field table.old class name.now kind) }
    ensures memory { IfErr result (λ why. why ≡ memory out_of_memory) }
{
    let position = Count::of(table.own_fields(class));
    add_own_field(table, class, kind)?;
    add_member(alloc, table, class, name, Own::Field { position, kind })
}

/// A declaration of this type by a class. A static member may not have every type.
fn enter_in_class(
    alloc: Global,
    table: &mut Table,
    file: u32,
    line: u32,
    class: u32,
    head: &DeclHead,
    name: &[u8],
    kind: Kind,
) -> Result<(), TypeFault>
    requires few { length table.old.statics < 2 ^ 32 }
    requires own { declared class table.old < MAX_FILE_TOKENS }
    ensures entered { OnOk result
        (kind_entered table.old file line (Some class) head.now name.now (Some kind)
        ≡ gives table.new) }
    ensures refused { IfErr result
        (λ why. IsFault why →
        kind_entered table.old file line (Some class) head.now name.now (Some kind)
        ≡ fault why) }
{
    if !head.is_static {
        return add_field(alloc, table, class, name, kind);
    }
    if may_be_static(head, kind) {
        add_static(alloc, table, class, name, kind)
    } else {
        Err(wrong(file, line, FaultKind::BadPlace))
    }
}

/// A declaration of this type by a file. Only members are static.
fn enter_in_file(
    alloc: Global,
    table: &mut Table,
    file: u32,
    line: u32,
    head: &DeclHead,
    name: &[u8],
    kind: Kind,
) -> Result<(), TypeFault>
    requires few { length table.old.statics < 2 ^ 32 }
    ensures entered { OnOk result
        (kind_entered table.old file line None head.now name.now (Some kind) ≡ gives table.new) }
    ensures refused { IfErr result
        (λ why. IsFault why →
        kind_entered table.old file line None head.now name.now (Some kind) ≡ fault why) }
{
    if head.is_static {
        return Err(wrong(file, line, FaultKind::BadPlace));
    }
    add_variable(alloc, table, file, name, kind)
}

/// A declaration by a class or a file, where its type is one.
fn enter_of_kind(
    alloc: Global,
    table: &mut Table,
    file: u32,
    line: u32,
    owner: Option<u32>,
    head: &DeclHead,
    name: &[u8],
    kind: Option<Kind>,
) -> Result<(), TypeFault>
    requires few { length table.old.statics < 2 ^ 32 }
    requires own { declared_by owner table.old < MAX_FILE_TOKENS }
    ensures entered { OnOk result
        (kind_entered table.old file line owner head.now name.now kind ≡ gives table.new) }
    ensures refused { IfErr result
        (λ why. IsFault why →
        kind_entered table.old file line owner head.now name.now kind ≡ fault why) }
{
    let Some(kind) = kind else {
        return Err(wrong(file, line, FaultKind::Mismatch));
    };
    match owner {
        Some(class) => enter_in_class(alloc, table, file, line, class, head, name, kind),
        None => enter_in_file(alloc, table, file, line, head, name, kind),
    }
}

/// Whether what makes an object with arguments has `@`.
fn is_misplaced(head: &DeclHead, declarator: &Declarator, kind: Option<Kind>) -> bool
    ensures { result ≡ is_misplaced head.now (view_declr declarator.now) kind }
{
    match &declarator.tail {
        DeclaratorTail::Brackets(_) => false,
        DeclaratorTail::Arguments(_) => head.is_reference && kind.is_some(),
    }
}

/// The type that a declaration gives its name, where it is one.
fn written_kind(head: &DeclHead, named: Named, declarator: &Declarator) -> Option<Kind>
    ensures { result ≡ written_kind head.now named (view_declr declarator.now) }
{
    match &declarator.tail {
        DeclaratorTail::Brackets(brackets) => declared_kind(head, named, brackets.items()),
        DeclaratorTail::Arguments(_) => made_kind(named),
    }
}

/// A declaration with `auto`, whose type isn't known yet.
fn add_auto(
    alloc: Global,
    table: &mut Table,
    file: u32,
    owner: Option<u32>,
    name: &[u8],
) -> Result<(), TypeFault>
    requires few { length table.old.statics < 2 ^ 32 }
    ensures added { OnOk result (table.new ≡ with_auto table.old file owner name.now) }
    ensures memory { IfErr result (λ why. why ≡ memory out_of_memory) }
{
    match owner {
        Some(class) => add_member(alloc, table, class, name, Own::Auto),
        None => add_variable(alloc, table, file, name, Kind::Void),
    }
}

/// A declaration whose type is one, or not. What makes an object with arguments has no `@`.
#[tactic(auto, using(crate::proofs::ExprWalks::name_is))]
fn enter_written(
    alloc: Global,
    table: &mut Table,
    file: u32,
    line: u32,
    owner: Option<u32>,
    head: &DeclHead,
    declarator: &Declarator,
    kind: Option<Kind>,
) -> Result<(), TypeFault>
    requires few { length table.old.statics < 2 ^ 32 }
    requires own { declared_by owner table.old < MAX_FILE_TOKENS }
    ensures entered { OnOk result
        (written_entered table.old file line owner head.now (view_declr declarator.now) kind
        ≡ gives table.new) }
    ensures refused { IfErr result
        (λ why. IsFault why →
        written_entered table.old file line owner head.now (view_declr declarator.now) kind
        ≡ fault why) }
{
    if is_misplaced(head, declarator, kind) {
        return Err(wrong(file, line, FaultKind::BadPlace));
    }
    let name = declarator.name.bytes();
    enter_of_kind(alloc, table, file, line, owner, head, name, kind)
}

/// One declaration.
#[tactic(auto, using(crate::proofs::ExprWalks::name_is))]
pub(crate) fn enter_declared(
    alloc: Global,
    table: &mut Table,
    file: u32,
    line: u32,
    owner: Option<u32>,
    head: &DeclHead,
    declarator: &Declarator,
) -> Result<(), TypeFault>
    requires few { length table.old.statics < 2 ^ 32 }
    requires own { declared_by owner table.old < MAX_FILE_TOKENS }
    ensures entered { OnOk result
        (declared_entered table.old file line owner head.now (view_declr declarator.now)
        ≡ gives table.new) }
    ensures refused { IfErr result
        (λ why. IsFault why →
        declared_entered table.old file line owner head.now (view_declr declarator.now)
        ≡ fault why) }
{
    let name = &declarator.name;
    let Some(base) = &head.base else {
        if is_taken(table, file, owner, name) {
            return Err(wrong(file, line, FaultKind::Duplicate));
        }
        return add_auto(alloc, table, file, owner, name.bytes());
    };
    let named = table.named(file, base);
    if named.is_unknown() {
        return Err(wrong(file, line, FaultKind::UnknownName));
    }
    if is_taken(table, file, owner, name) {
        return Err(wrong(file, line, FaultKind::Duplicate));
    }
    let kind = written_kind(head, named, declarator);
    enter_written(alloc, table, file, line, owner, head, declarator, kind)
}
