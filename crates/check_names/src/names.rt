//! What names stand for.
ghost use Rattle.std.specs.Prelude.{◌≡◌, ◌||◌, IfOk, IfErr};
ghost use Rattle.ck_typed.specs.Tree as form;
ghost use Rattle.ck_typed.specs.declared.operation.Variadic.TheVariants as variadic_op;
ghost use Rattle.ck_typed.specs.View.{view_expr};
ghost use Rattle.ck_typed.specs.declared.expr.Spot.TheVariants.{Local as local_at, Field as field_at};
ghost use Rattle.check_scope.specs.Denotations as definition;
ghost use Rattle.check_scope.specs.Scope.{this_local, place as place_of};
ghost use Rattle.check_scope.specs.View.{view_denoted, Answers, Finds};
ghost use Rattle.type_rules.specs.Parameters.{parameter_of};
ghost use Rattle.type_rules.specs.declared.calls.Holder.TheVariants.{Event as on_event};
ghost use Rattle.type_table.specs.Answer.{fault};
ghost use Rattle.type_table.specs.Table.{member_named};
ghost use Rattle.fixed_point.specs.Wanting.{out_of_memory};
ghost use Rattle.type_table.specs.declared.fault.TypeFault.TheVariants.{Memory as memory};

use check_scope::{Callee, Denoted, Scope, Target, Typed, as_value, boxed, list_of};
use ck_base::{List, Text};
use ck_typed::{Spot, TypedExpr, Variadic};
use ck_values::{Elem, Kind};
use std::alloc::Global;
use type_rules::{Holder, has_call, param};
use type_table::{BuiltInName, FaultKind, Member, Table, TypeFault, Variable, built_in};
use ugen_names::UgenKind;

/// What stands at this spot, which has no address.
fn at_spot(alloc: Global, spot: Spot, kind: Kind) -> Denoted
    ensures { view_denoted result ≡ definition.at spot form.no_exprs kind }
{
    let address = List::from_vec(Vec::new(alloc));
    Denoted::Target(Target {
        spot,
        address,
        kind,
    })
}

/// What stands at this spot, which has an object for its address.
fn at_object(
    alloc: Global,
    spot: Spot,
    object: Box<TypedExpr>,
    kind: Kind,
) -> Result<Denoted, TypeFault>
    ensures made { IfOk result
        (λ m. view_denoted m ≡ definition.at spot (definition.one (view_expr object.value)) kind) }
    ensures memory { IfErr result (λ why. why ≡ memory out_of_memory) }
{
    let address = list_of(alloc, object)?;
    Ok(Denoted::Target(Target {
        spot,
        address,
        kind,
    }))
}

/// `this`, which is the local of this number.
#[tactic(auto, using(check_scope::proofs::Rows::rows))]
fn read_this(
    alloc: Global,
    scope: &Scope,
    line: u32,
    local: u32,
) -> Result<Box<TypedExpr>, TypeFault>
    ensures made { IfOk result
        (λ e. view_expr e.value
        ≡ form.Variadic (variadic_op.Read (local_at local)) form.no_exprs
        (place_of scope.now line)) }
    ensures memory { IfErr result (λ why. why ≡ memory out_of_memory) }
{
    let read = TypedExpr::Variadic {
        operation: Variadic::Read(Spot::Local(local)),
        operands: List::from_vec(Vec::new(alloc)),
        place: scope.place(line),
    };
    boxed(alloc, read)
}

/// Whether this is a public class, which doesn't see its file's variables and functions.
fn is_public_class(table: &Table, class: Option<u32>) -> bool
    ensures { result ≡ definition.is_public_class table.now class }
{
    match class {
        Some(class) => table.is_public(class),
        None => false,
    }
}

/// What is named, where it isn't named in a public class.
fn unless_public(
    table: &Table,
    scope: &Scope,
    line: u32,
    named: Denoted,
) -> Result<Denoted, TypeFault>
    ensures { Answers view_denoted result
        (definition.unless_public table.now scope.now line (view_denoted named)) }
{
    if is_public_class(table, scope.class()) {
        return Err(scope.wrong(line, FaultKind::BadPlace));
    }
    Ok(named)
}

/// A call of `Event` on `this`.
fn event_call(
    alloc: Global,
    table: &Table,
    scope: &Scope,
    line: u32,
    name: &Text,
) -> Result<Denoted, TypeFault>
    ensures { Answers view_denoted result
        (definition.with_this scope.now line (this_local table.now scope.now)
        (λ this. definition.callable (definition.native_on this on_event name.now))) }
{
    let Some(this) = scope.this_local(table) else {
        return Err(scope.wrong(line, FaultKind::BadPlace));
    };
    let name = name.try_clone(alloc)?;
    let receiver = read_this(alloc, scope, line, this)?;
    Ok(Denoted::Callable(Callee::NativeOn {
        receiver,
        holder: Holder::Event,
        name,
    }))
}

/// A member function of `this`.
fn method_of_this(
    alloc: Global,
    table: &Table,
    scope: &Scope,
    line: u32,
    fun: u32,
    slot: u32,
) -> Result<Denoted, TypeFault>
    ensures { Answers view_denoted result
        (definition.with_this scope.now line (this_local table.now scope.now)
        (λ this. definition.callable (definition.method this fun slot))) }
{
    let Some(this) = scope.this_local(table) else {
        return Err(scope.wrong(line, FaultKind::BadPlace));
    };
    let receiver = read_this(alloc, scope, line, this)?;
    Ok(Denoted::Callable(Callee::Method {
        receiver,
        fun,
        slot,
    }))
}

/// A field of `this`.
fn field_of_this(
    alloc: Global,
    table: &Table,
    scope: &Scope,
    line: u32,
    index: u32,
    kind: Kind,
) -> Result<Denoted, TypeFault>
    ensures { Answers view_denoted result
        (definition.with_this scope.now line (this_local table.now scope.now)
        (λ this. definition.at (field_at index) (definition.one this) kind)) }
{
    let Some(this) = scope.this_local(table) else {
        return Err(scope.wrong(line, FaultKind::BadPlace));
    };
    let object = read_this(alloc, scope, line, this)?;
    at_object(alloc, Spot::Field(index), object, kind)
}

/// A local, from the innermost block outwards.
fn in_locals(alloc: Global, scope: &Scope, name: &Text) -> Option<Result<Denoted, TypeFault>>
    ensures { Finds view_denoted result (definition.in_locals scope.now name.now) }
{
    let local = scope.local(name)?;
    Some(Ok(at_spot(alloc, Spot::Local(local), scope.local_kind(local))))
}

/// The member of this name that a class has.
fn member_here(table: &Table, class: Option<u32>, name: &Text) -> Option<Member>
    ensures { result ≡ definition.member_here table.now class name.now }
{
    match class {
        Some(class) => table.member(class, name),
        None => None,
    }
}

/// The member of this name, where it doesn't stand in its own arguments.
fn unless_unseen(scope: &Scope, name: &Text, member: Option<Member>) -> Option<Member>
    ensures { result ≡ definition.unless_unseen scope.now name.now member }
{
    if scope.is_unseen(name) { None } else { member }
}

/// A field or a static member of the class around or of an ancestor.
fn in_fields(
    alloc: Global,
    table: &Table,
    scope: &Scope,
    line: u32,
    member: Option<Member>,
) -> Option<Result<Denoted, TypeFault>>
    ensures { Finds view_denoted result (definition.in_fields table.now scope.now line member) }
{
    match member {
        Some(Member::Field { index, kind }) => {
            Some(field_of_this(alloc, table, scope, line, index, kind))
        }
        Some(Member::Static { index, kind }) => Some(Ok(at_spot(alloc, Spot::Static(index), kind))),
        _ => None,
    }
}

/// A file variable, where it is seen already, with its type.
fn seen(scope: &Scope, variable: Option<Variable>) -> Option<Variable>
    ensures { result ≡ definition.seen scope.now variable }
{
    let variable = variable?;
    let kind = scope.kind_now(variable);
    if matches!(kind, Kind::Void) {
        return None;
    }
    if scope.is_top() && u64::from(variable.index) >= scope.reached() {
        return None;
    }
    Some(Variable { kind, ..variable })
}

/// A variable of the file.
fn in_variables(
    alloc: Global,
    table: &Table,
    scope: &Scope,
    line: u32,
    name: &Text,
) -> Option<Result<Denoted, TypeFault>>
    ensures { Finds view_denoted result
        (definition.in_variables table.now scope.now line name.now) }
{
    let variable = seen(scope, table.variable(scope.file(), name))?;
    let named = at_spot(alloc, Spot::Static(variable.index), variable.kind);
    Some(unless_public(table, scope, line, named))
}

/// A function of the class around or of an ancestor.
fn in_methods(
    alloc: Global,
    table: &Table,
    scope: &Scope,
    line: u32,
    member: Option<Member>,
) -> Option<Result<Denoted, TypeFault>>
    ensures { Finds view_denoted result (definition.in_methods table.now scope.now line member) }
{
    match member {
        Some(Member::Fun { fun, slot: None }) => Some(Ok(Denoted::Callable(Callee::Numbered(fun)))),
        Some(
            Member::Fun {
                fun,
                slot: Some(slot),
            },
        ) => Some(method_of_this(alloc, table, scope, line, fun, slot)),
        _ => None,
    }
}

/// A call that every class below `Event` has, where the class around is one.
fn in_event_calls(
    alloc: Global,
    table: &Table,
    scope: &Scope,
    line: u32,
    name: &Text,
) -> Option<Result<Denoted, TypeFault>>
    ensures { Finds view_denoted result
        (definition.in_event_calls table.now scope.now line name.now scope.now.class) }
{
    match scope.class() {
        Some(class) if table.is_event_call(class, name.bytes()) => {
            Some(event_call(alloc, table, scope, line, name))
        }
        _ => None,
    }
}

/// A function of the file.
fn in_functions(
    table: &Table,
    scope: &Scope,
    line: u32,
    name: &Text,
) -> Option<Result<Denoted, TypeFault>>
    ensures { Finds view_denoted result
        (definition.in_functions table.now scope.now line name.now) }
{
    let fun = table.fun(scope.file(), name)?;
    Some(unless_public(table, scope, line, Denoted::Callable(Callee::Numbered(fun))))
}

/// A class that the file sees.
fn in_classes(table: &Table, scope: &Scope, name: &Text) -> Option<Result<Denoted, TypeFault>>
    ensures { Finds view_denoted result (definition.in_classes table.now scope.now name.now) }
{
    let class = table.class(scope.file(), name)?;
    Some(Ok(Denoted::Named(BuiltInName::Elem(Elem::Class(class)))))
}

/// A name that every program has.
fn in_built_ins(name: &Text) -> Option<Result<Denoted, TypeFault>>
    ensures { Finds view_denoted result (definition.in_built_ins name.now) }
{
    let named = built_in(name.bytes())?;
    Some(Ok(Denoted::Named(named)))
}

/// What a name stands for by itself: what the first place gives that has it, from the locals out to
/// the names that every program has.
#[tactic(auto, using(crate::proofs::Places::found_first))]
pub fn name_meaning(
    alloc: Global,
    table: &Table,
    scope: &Scope,
    line: u32,
    name: &Text,
) -> Result<Denoted, TypeFault>
    ensures { Answers view_denoted result
        (definition.name_meaning table.now scope.now line name.now) }
{
    if let Some(local) = in_locals(alloc, scope, name) {
        return local;
    }
    let member = member_here(table, scope.class(), name);
    let visible = unless_unseen(scope, name, member);
    if let Some(field) = in_fields(alloc, table, scope, line, visible) {
        return field;
    }
    if let Some(variable) = in_variables(alloc, table, scope, line, name) {
        return variable;
    }
    if let Some(method) = in_methods(alloc, table, scope, line, member) {
        return method;
    }
    if let Some(call) = in_event_calls(alloc, table, scope, line, name) {
        return call;
    }
    if let Some(function) = in_functions(table, scope, line, name) {
        return function;
    }
    if let Some(class) = in_classes(table, scope, name) {
        return class;
    }
    if let Some(named) = in_built_ins(name) {
        return named;
    }
    Err(scope.wrong(line, FaultKind::UnknownName))
}

/// A built-in call on an object.
fn native_meaning(
    alloc: Global,
    scope: &Scope,
    line: u32,
    object: Box<TypedExpr>,
    holder: Holder,
    name: &Text,
) -> Result<Denoted, TypeFault>
    ensures { Answers view_denoted result
        (definition.native_meaning scope.now line (view_expr object.value) holder name.now) }
{
    if !has_call(holder, name.bytes()) {
        return Err(scope.wrong(line, FaultKind::UnknownName));
    }
    let name = name.try_clone(alloc)?;
    Ok(Denoted::Callable(Callee::NativeOn {
        receiver: object,
        holder,
        name,
    }))
}

/// A member of an object.
fn object_meaning(
    alloc: Global,
    table: &Table,
    scope: &Scope,
    line: u32,
    object: Box<TypedExpr>,
    class: u32,
    name: &Text,
) -> Result<Denoted, TypeFault>
    ensures { Answers view_denoted result
        (definition.object_meaning table.now scope.now line (view_expr object.value) class
        name.now (member_named table.now class name.now)) }
{
    match table.member(class, name) {
        Some(Member::Field { index, kind }) => at_object(alloc, Spot::Field(index), object, kind),
        Some(Member::Static { index, kind }) => {
            at_object(alloc, Spot::StaticOf(index), object, kind)
        }
        Some(Member::Fun { fun, slot: None }) => {
            Ok(Denoted::Callable(Callee::Through { object, fun }))
        }
        Some(
            Member::Fun {
                fun,
                slot: Some(slot),
            },
        ) => Ok(Denoted::Callable(Callee::Method {
            receiver: object,
            fun,
            slot,
        })),
        Some(Member::Auto) => Err(scope.wrong(line, FaultKind::UnknownName)),
        None if table.is_event_call(class, name.bytes()) => {
            let name = name.try_clone(alloc)?;
            Ok(Denoted::Callable(Callee::NativeOn {
                receiver: object,
                holder: Holder::Event,
                name,
            }))
        }
        None => Err(scope.wrong(line, FaultKind::UnknownName)),
    }
}

/// Whose call of this name a unit generator has: both kinds of envelope have those of the first.
fn ugen_holder(kind: UgenKind, name: &[u8]) -> Option<Holder>
    ensures { result ≡ definition.ugen_holder kind name.now }
{
    match kind {
        UgenKind::Envelope | UgenKind::Adsr if has_call(Holder::Envelope, name) => {
            Some(Holder::Envelope)
        }
        UgenKind::Adsr if has_call(Holder::Adsr, name) => Some(Holder::Adsr),
        _ => None,
    }
}

/// A parameter of a unit generator, else a call of it.
fn ugen_meaning(
    alloc: Global,
    scope: &Scope,
    line: u32,
    object: Box<TypedExpr>,
    kind: UgenKind,
    name: &Text,
) -> Result<Denoted, TypeFault>
    ensures { Answers view_denoted result
        (definition.ugen_meaning scope.now line (view_expr object.value) kind name.now) }
{
    if let Some(parameter) = param(kind, name.bytes()) {
        return Ok(Denoted::Callable(Callee::Param {
            ugen: object,
            parameter,
        }));
    }
    let Some(holder) = ugen_holder(kind, name.bytes()) else {
        return Err(scope.wrong(line, FaultKind::UnknownName));
    };
    let name = name.try_clone(alloc)?;
    Ok(Denoted::Callable(Callee::NativeOn {
        receiver: object,
        holder,
        name,
    }))
}

/// A member of a value.
fn member_of_kind(
    alloc: Global,
    table: &Table,
    scope: &Scope,
    line: u32,
    object: Typed,
    name: &Text,
) -> Result<Denoted, TypeFault>
    ensures { Answers view_denoted result
        (definition.member_of_kind table.now scope.now line (view_expr object.expr.value)
        object.kind name.now) }
{
    let expr = object.expr;
    match object.kind {
        Kind::One(Elem::Class(class)) => {
            object_meaning(alloc, table, scope, line, expr, class, name)
        }
        Kind::One(Elem::Unit(kind)) => ugen_meaning(alloc, scope, line, expr, kind, name),
        Kind::One(Elem::Shred) => native_meaning(alloc, scope, line, expr, Holder::Shred, name),
        Kind::One(Elem::Text) => native_meaning(alloc, scope, line, expr, Holder::Text, name),
        Kind::Row(_) | Kind::Grid(_) => {
            native_meaning(alloc, scope, line, expr, Holder::Array, name)
        }
        _ => Err(scope.wrong(line, FaultKind::Mismatch)),
    }
}

/// The fault of a member that can't be named through its type: it is there, but isn't static, or
/// it isn't there.
fn not_static(scope: &Scope, line: u32, is_there: bool) -> TypeFault
    ensures { definition.if_there scope.now line is_there ≡ fault result }
{
    let kind = if is_there {
        FaultKind::BadPlace
    } else {
        FaultKind::UnknownName
    };
    scope.wrong(line, kind)
}

/// A static member of a class.
fn static_meaning(
    alloc: Global,
    table: &Table,
    scope: &Scope,
    line: u32,
    class: u32,
    name: &Text,
) -> Result<Denoted, TypeFault>
    ensures { Answers view_denoted result
        (definition.static_meaning table.now scope.now line class name.now
        (member_named table.now class name.now)) }
{
    match table.member(class, name) {
        Some(Member::Static { index, kind }) => Ok(at_spot(alloc, Spot::Static(index), kind)),
        Some(Member::Fun { fun, slot: None }) => Ok(Denoted::Callable(Callee::Numbered(fun))),
        Some(_) => Err(scope.wrong(line, FaultKind::BadPlace)),
        None => Err(not_static(scope, line, table.is_event_call(class, name.bytes()))),
    }
}

/// Whether a unit generator has a parameter or a call of this name.
fn has_ugen_member(kind: UgenKind, name: &[u8]) -> bool
    ensures { result
        ≡ definition.has_param (parameter_of kind name.now) || definition.has_holder
        (definition.ugen_holder kind name.now) }
{
    param(kind, name).is_some() || ugen_holder(kind, name).is_some()
}

/// A member of a type's name: a static one.
fn member_of_type(
    alloc: Global,
    table: &Table,
    scope: &Scope,
    line: u32,
    named: BuiltInName,
    name: &Text,
) -> Result<Denoted, TypeFault>
    ensures { Answers view_denoted result
        (definition.member_of_type table.now scope.now line named name.now) }
{
    match named {
        BuiltInName::Elem(Elem::Class(class)) => {
            static_meaning(alloc, table, scope, line, class, name)
        }
        BuiltInName::Elem(Elem::Unit(kind)) => {
            Err(not_static(scope, line, has_ugen_member(kind, name.bytes())))
        }
        BuiltInName::Elem(_) => {
            Err(not_static(scope, line, has_call(Holder::Shred, name.bytes())))
        }
        BuiltInName::Module(holder) => {
            if !has_call(holder, name.bytes()) {
                return Err(scope.wrong(line, FaultKind::UnknownName));
            }
            let name = name.try_clone(alloc)?;
            Ok(Denoted::Callable(Callee::Native { holder, name }))
        }
    }
}

/// A member of what an expression at a line stands for.
pub fn member_meaning(
    alloc: Global,
    table: &Table,
    scope: &Scope,
    line: u32,
    object_line: u32,
    object: Denoted,
    name: &Text,
) -> Result<Denoted, TypeFault>
    ensures { Answers view_denoted result
        (definition.member_meaning table.now scope.now line object_line (view_denoted object)
        name.now) }
{
    match object {
        Denoted::Named(named) => member_of_type(alloc, table, scope, line, named, name),
        object => {
            let object = as_value(alloc, scope, object_line, object)?;
            member_of_kind(alloc, table, scope, line, object, name)
        }
    }
}
