//! Functions: their parameters, and the statements of their bodies.
ghost use Rattle.std.specs.Prelude.{◌≡◌, ◌+◌, ◌^◌, ◌<◌, ◌≤◌, length, Some, slice_get, OnOk, IfOk, IfErr};
ghost use Rattle.ck_syntax.specs.Size.{params_size, stmts_size, fun_size};
ghost use Rattle.ck_syntax.specs.Tree.{no_params, no_stmts};
ghost use Rattle.ck_syntax.specs.View.{params_of, stmts_of, view_fun};
ghost use Rattle.ck_typed.specs.Standing.{given as given_kind};
ghost use Rattle.ck_typed.specs.View.{view_fun as view_typed_fun};
ghost use Rattle.check_scope.specs.Scope.{new_scope, or_void};
ghost use Rattle.check_decls.specs.Outcomes.{IsRefused};
ghost use Rattle.check_decls.specs.ProgramTyping as typing;
ghost use Rattle.program_laws.specs.Programs as definition;
ghost use Rattle.check_decls.specs.View.{all_stated};
ghost use Rattle.type_table.specs.Answer.{gives};
ghost use Rattle.fixed_point.specs.Wanting.{out_of_memory};
ghost use Rattle.type_table.specs.declared.fault.TypeFault.TheVariants.{Memory as memory};

use crate::simple::block_of;
use crate::statements::statements;
use check_exprs::Scope;
use check_scope::Settled;
use ck_base::{List, Text};
use ck_syntax::{FunDef, FunHead, Param, Stmt};
use ck_typed::{TypedFun, TypedStmt};
use ck_values::{Elem, Kind};
use program_laws::Surroundings;
use std::alloc::Global;
use type_table::{Table, TypeFault};

/// The scope of a class's statements, or of its functions that aren't static: `this` is their
/// first local. No name is taken before it, so only memory may be wanting.
pub(crate) fn scope_with_this(
    alloc: Global,
    file: u32,
    class: u32,
    fun: Option<u32>,
    settled: Settled,
) -> Result<Scope, TypeFault>
    ensures made { IfOk result
        (λ scope. scope ≡ definition.with_this (new_scope file (Some class) fun settled) class) }
    ensures few { IfOk result (λ scope. length scope.locals ≤ 1) }
    ensures memory { IfErr result (λ why. why ≡ memory out_of_memory) }
{
    let this = Text::from_bytes(alloc, b"this")?;
    let mut scope = Scope::new(alloc, file, Some(class), fun, settled);
    match scope.declare(alloc, &this, Kind::One(Elem::Class(class)), 0) {
        Ok(_) => Ok(scope),
        Err(why) => Err(why),
    }
}

/// The scope of a function.
fn fun_scope(
    alloc: Global,
    file: u32,
    class: Option<u32>,
    fun: u32,
    is_static: bool,
    settled: Settled,
) -> Result<Scope, TypeFault>
    ensures made { IfOk result
        (λ scope. scope ≡ definition.fun_scope file class fun is_static settled) }
    ensures few { IfOk result (λ scope. length scope.locals ≤ 1) }
    ensures memory { IfErr result (λ why. why ≡ memory out_of_memory) }
{
    match class {
        Some(class) if !is_static => scope_with_this(alloc, file, class, Some(fun), settled),
        _ => Ok(Scope::new(alloc, file, class, Some(fun), settled)),
    }
}

/// The type of the parameter behind so many.
fn type_at(types: &[Kind], place: usize) -> Kind
    ensures { result ≡ or_void (slice_get types.now place) }
{
    match types.get(place) {
        Some(kind) => *kind,
        None => Kind::Void,
    }
}

/// Declares a parameter of this type at this line.
fn declare_param(
    alloc: Global,
    scope: &mut Scope,
    line: u32,
    name: &Text,
    kind: Kind,
) -> Result<(), TypeFault>
    requires few { length scope.old.locals < 2 ^ 32 }
    ensures declared { OnOk result
        (definition.with_param scope.old line name.now kind ≡ gives scope.new) }
    ensures refused { IsRefused result (definition.with_param scope.old line name.now kind) }
    ensures grown { length scope.new.locals ≤ length scope.old.locals + 1 }
{
    scope.declare(alloc, name, kind, line)?;
    Ok(())
}

/// Declares the parameters of a function in their order. These are the types that its head has.
fn declare_params(
    alloc: Global,
    types: &[Kind],
    scope: &mut Scope,
    line: u32,
    params: &[Param],
) -> Result<(), TypeFault>
    requires room { length scope.old.locals
        + params_size (params_of no_params params.now) < 2 ^ 32 }
    ensures declared { OnOk result
        (typing.params types.now scope.old line params.now ≡ gives scope.new) }
    ensures refused { IsRefused result (typing.params types.now scope.old line params.now) }
    ensures grown { length scope.new.locals ≤ length scope.old.locals
        + params_size (params_of no_params params.now) }
{
    for (place, param) in params.iter().enumerate() {
        let kind = type_at(types, place);
        declare_param(alloc, scope, line, &param.name, kind)?;
    }
    Ok(())
}

/// What a function gives whose text says this. One without result gives an int.
fn given(kind: Kind) -> Kind
    ensures { result ≡ given_kind kind }
{
    match kind {
        Kind::Void => Kind::One(Elem::Int),
        kind => kind,
    }
}

/// A function of these statements, of whose locals so many are parameters.
pub(crate) fn fun_made(
    params: u32,
    kind: Kind,
    line: u32,
    body: List<TypedStmt>,
    scope: Scope,
) -> TypedFun
    ensures { view_typed_fun result ≡ definition.fun_made params kind line (all_stated body scope) }
{
    let place = scope.place(line);
    TypedFun {
        params,
        locals: scope.locals(),
        result: given(kind),
        body: block_of(body),
        place,
    }
}

/// A function of this number, in whose scope its parameters are declared. They are a level of
/// their own around the body. What was settled before is given back as it was.
fn fun_with(
    alloc: Global,
    table: &Table,
    number: u32,
    line: u32,
    body: &[Stmt],
    mut scope: Scope,
) -> Result<(TypedFun, Settled), TypeFault>
    requires room { length scope.locals + stmts_size (stmts_of no_stmts body.now) < 2 ^ 32 }
    ensures typed { IfOk result (λ made.
        typing.fun_with table.now number line body.now scope ≡ gives (view_typed_fun made.0)) }
    ensures settled { IfOk result (λ made. made.1 ≡ scope.settled) }
    ensures refused { IsRefused result (typing.fun_with table.now number line body.now scope) }
{
    let params = scope.next();
    let kind = table.result(number);
    let around = Surroundings {
        result: Some(kind),
        in_loop: false,
    };
    scope.enter(alloc)?;
    let typed = statements(alloc, table, around, &mut scope, body)?;
    let settled = scope.lend_settled(alloc);
    Ok((fun_made(params, kind, line, typed, scope), settled))
}

/// Whether a function is static; a constructor isn't.
fn is_static(fun: &FunDef) -> bool
    ensures { result ≡ definition.is_static (view_fun fun.now) }
{
    match &fun.head {
        FunHead::Named { is_static, .. } => *is_static,
        FunHead::Construct => false,
    }
}

/// The function of this number: of a class, or of a file. What was settled before is known in it,
/// and given back as it was.
pub(crate) fn fun_typed(
    alloc: Global,
    table: &Table,
    file: u32,
    class: Option<u32>,
    number: u32,
    settled: Settled,
    fun: &FunDef,
) -> Result<(TypedFun, Settled), TypeFault>
    requires room { fun_size (view_fun fun.now) < 2 ^ 32 }
    ensures typed { IfOk result (λ made.
        typing.fun_typed table.now file class number settled fun.now
        ≡ gives (view_typed_fun made.0)) }
    ensures settled { IfOk result (λ made. made.1 ≡ settled) }
    ensures refused { IsRefused result
        (typing.fun_typed table.now file class number settled fun.now) }
{
    let mut scope = fun_scope(alloc, file, class, number, is_static(fun), settled)?;
    let types = table.params(number);
    declare_params(alloc, types, &mut scope, fun.line, fun.params.items())?;
    fun_with(alloc, table, number, fun.line, fun.body.items(), scope)
}
