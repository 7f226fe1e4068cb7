//! Calls, and the arguments that they take.
ghost use Rattle.std.specs.Prelude.{◌≡◌, [], ◌∷◌, map, length, true, false, Some, None, IfOk, IfErr};
ghost use Rattle.std.specs.Option.{option_map};
ghost use Rattle.ck_values.specs.declared.kind.Elem.TheVariants.{Shred};
ghost use Rattle.ck_values.specs.declared.kind.Kind.TheVariants.{One as one_of};
ghost use Rattle.ck_typed.specs.Tree as form;
ghost use Rattle.ck_typed.specs.Tree.{no_exprs, more_exprs};
ghost use Rattle.ck_typed.specs.declared.operation.Variadic.TheVariants as variadic_op;
ghost use Rattle.ck_typed.specs.View.{view_expr, exprs_of};
ghost use Rattle.type_rules.specs.Calls.{call_of};
ghost use Rattle.type_rules.specs.CallRows.{built_in as signature_of};
ghost use Rattle.type_rules.specs.ParameterRows.{settable};
ghost use Rattle.type_table.specs.Answer.{IsFault};
ghost use Rattle.type_table.specs.Table.{fun_of};
ghost use Rattle.type_table.specs.declared.fault.FaultKind.TheVariants.{Arguments as bad_arguments};
ghost use Rattle.fixed_point.specs.Wanting.{out_of_memory};
ghost use Rattle.type_table.specs.declared.fault.TypeFault.TheVariants.{Memory as memory, Typing as typing};
ghost use Rattle.check_scope.specs.Expressions as definition;
ghost use Rattle.check_scope.specs.Denotations.{typed_as, value, numbered, through, method};
ghost use Rattle.check_scope.specs.Scope.{place as place_of};
ghost use Rattle.check_scope.specs.View.{view_typed, all_typed, view_callee, view_denoted, Answers, view_value};

use check_scope::{Callee, Denoted, Scope, Typed, fits, push, push_front, taken_as};
use ck_base::{List, Text};
use ck_typed::{Binary, Leaf, TypedExpr, Unary, Variadic};
use ck_values::{Elem, Kind, Place};
use std::alloc::Global;
use type_rules::{BuiltIn, Holder, Parameter, call};
use type_table::{FaultKind, Table, TypeFault};

/// The arguments, each taken as its parameter, where there are as many as parameters and each
/// fits its own.
#[tactic(auto, using(crate::proofs::Arguments::arguments))]
fn fitted(
    alloc: Global,
    parents: &[u32],
    arguments: List<Typed>,
    kinds: &[Kind],
) -> Result<Option<List<TypedExpr>>, TypeFault>
    ensures fitted { IfOk result
        (λ taken. definition.fitted parents.now (all_typed arguments) kinds.now
        ≡ option_map exprs_of taken) }
    ensures memory { IfErr result (λ why. why ≡ memory out_of_memory) }
{
    let mut taken = Vec::new(alloc);
    let mut rest = kinds;
    for argument in arguments.into_vec() {
        let Some((kind, others)) = rest.split_first() else {
            return Ok(None);
        };
        if !fits(parents, &argument, *kind) {
            return Ok(None);
        }
        let value = taken_as(alloc, argument, *kind)?;
        push(&mut taken, Box::into_inner(value))?;
        rest = others;
    }
    if rest.is_empty() {
        Ok(Some(List::from_vec(taken)))
    } else {
        Ok(None)
    }
}

/// The arguments, each taken as its parameter.
fn taken(
    alloc: Global,
    parents: &[u32],
    scope: &Scope,
    line: u32,
    arguments: List<Typed>,
    kinds: &[Kind],
) -> Result<List<TypedExpr>, TypeFault>
    ensures fitted { IfOk result
        (λ taken. definition.fitted parents.now (all_typed arguments) kinds.now
        ≡ Some (exprs_of taken)) }
    ensures unfit { IfErr result
        (λ why. IsFault why →
        definition.fitted parents.now (all_typed arguments) kinds.now ≡ None) }
    ensures refused { IfErr result
        (λ why. IsFault why → why ≡ typing scope.now.file line bad_arguments) }
{
    match fitted(alloc, parents, arguments, kinds)? {
        Some(taken) => Ok(taken),
        None => Err(scope.wrong(line, FaultKind::Arguments)),
    }
}

/// One argument, taken as its parameter.
#[tactic(auto, using(crate::proofs::Arguments::arguments))]
pub(crate) fn one_taken(
    alloc: Global,
    parents: &[u32],
    scope: &Scope,
    line: u32,
    argument: Typed,
    kinds: &[Kind],
) -> Result<Box<TypedExpr>, TypeFault>
    ensures fitted { IfOk result
        (λ taken. definition.fitted parents.now (view_typed argument ∷ []) kinds.now
        ≡ Some (more_exprs (view_expr taken.value) no_exprs)) }
    ensures unfit { IfErr result
        (λ why. IsFault why →
        definition.fitted parents.now (view_typed argument ∷ []) kinds.now ≡ None) }
    ensures refused { IfErr result
        (λ why. IsFault why → why ≡ typing scope.now.file line bad_arguments) }
{
    match kinds {
        [kind] if fits(parents, &argument, *kind) => taken_as(alloc, argument, *kind),
        _ => Err(scope.wrong(line, FaultKind::Arguments)),
    }
}

/// These behind the first one.
fn behind(first: Box<TypedExpr>, rest: List<TypedExpr>) -> Result<List<TypedExpr>, TypeFault>
    ensures all { IfOk result (λ all. all ≡ first.value ∷ rest) }
    ensures memory { IfErr result (λ why. why ≡ memory out_of_memory) }
{
    let mut all = rest.into_vec();
    push_front(&mut all, Box::into_inner(first))?;
    Ok(List::from_vec(all))
}

/// The types of single values.
pub(crate) fn single(alloc: Global, elems: &[Elem]) -> Result<Vec<Kind>, TypeFault>
    ensures kinds { IfOk result (λ kinds. kinds.items ≡ map one_of elems.now) }
    ensures memory { IfErr result (λ why. why ≡ memory out_of_memory) }
{
    Ok(elems.iter().map(|elem| Kind::One(*elem)).collect(alloc)?)
}

/// A call of a function by its number.
#[tactic(auto, using(check_scope::proofs::Rows::rows))]
pub(crate) fn numbered_call(
    alloc: Global,
    table: &Table,
    scope: &Scope,
    line: u32,
    fun: u32,
    arguments: List<Typed>,
) -> Result<Typed, TypeFault>
    ensures { Answers view_value result
        (definition.callee_meaning table.now scope.now line (numbered fun) (all_typed arguments)) }
{
    let arguments = taken_by(alloc, table, scope, line, fun, arguments)?;
    let place = scope.place(line);
    let call = TypedExpr::Variadic {
        operation: Variadic::Call(fun),
        operands: arguments,
        place,
    };
    Typed::new(alloc, call, table.result(fun), place)
}

/// A call of a static function that is named through a value.
#[tactic(auto, using(check_scope::proofs::Rows::rows))]
fn call_through(
    alloc: Global,
    table: &Table,
    scope: &Scope,
    line: u32,
    object: Box<TypedExpr>,
    fun: u32,
    arguments: List<Typed>,
) -> Result<Typed, TypeFault>
    ensures { Answers view_value result
        (definition.callee_meaning table.now scope.now line
        (through (view_expr object.value) fun) (all_typed arguments)) }
{
    let arguments = taken_by(alloc, table, scope, line, fun, arguments)?;
    let place = scope.place(line);
    let call = TypedExpr::CallOf {
        object,
        fun,
        arguments,
        place,
    };
    Typed::new(alloc, call, table.result(fun), place)
}

/// A call of a member function of a receiver.
#[tactic(auto, using(check_scope::proofs::Rows::rows))]
fn method_call(
    alloc: Global,
    table: &Table,
    scope: &Scope,
    line: u32,
    receiver: Box<TypedExpr>,
    fun: u32,
    slot: u32,
    arguments: List<Typed>,
) -> Result<Typed, TypeFault>
    ensures { Answers view_value result
        (definition.callee_meaning table.now scope.now line
        (method (view_expr receiver.value) fun slot) (all_typed arguments)) }
{
    let arguments = taken_by(alloc, table, scope, line, fun, arguments)?;
    let place = scope.place(line);
    let call = TypedExpr::Variadic {
        operation: Variadic::Method(slot),
        operands: behind(receiver, arguments)?,
        place,
    };
    Typed::new(alloc, call, table.result(fun), place)
}

/// The built-in call of this name that takes so many arguments.
pub(crate) fn built_in(
    scope: &Scope,
    line: u32,
    holder: Holder,
    name: &Text,
    count: usize,
) -> Result<BuiltIn, TypeFault>
    ensures found { IfOk result (λ one. call_of holder name.now count ≡ Some (signature_of one)) }
    ensures unknown { IfErr result (λ why. call_of holder name.now count ≡ None) }
    ensures refused { IfErr result (λ why. why ≡ typing scope.now.file line bad_arguments) }
{
    match call(holder, name.bytes(), count) {
        Some(found) => Ok(found),
        None => Err(scope.wrong(line, FaultKind::Arguments)),
    }
}

/// A built-in call of these operands.
#[tactic(auto, using(check_scope::proofs::Rows::rows))]
fn natively(
    alloc: Global,
    scope: &Scope,
    line: u32,
    found: BuiltIn,
    operands: List<TypedExpr>,
) -> Result<Typed, TypeFault>
    ensures typed { IfOk result
        (λ t. view_typed t
        ≡ typed_as (form.Variadic (variadic_op.Native found.native) (exprs_of operands)
        (place_of scope.now line))
        found.gives (place_of scope.now line)) }
    ensures memory { IfErr result (λ why. why ≡ memory out_of_memory) }
{
    let place = scope.place(line);
    let call = TypedExpr::Variadic {
        operation: Variadic::Native(found.native),
        operands,
        place,
    };
    Typed::new(alloc, call, found.gives, place)
}

/// A built-in call by itself.
#[tactic(auto, using(check_scope::proofs::Rows::rows, crate::proofs::Arguments::arguments))]
pub(crate) fn native_call(
    alloc: Global,
    parents: &[u32],
    scope: &Scope,
    line: u32,
    holder: Holder,
    name: Text,
    arguments: List<Typed>,
) -> Result<Typed, TypeFault>
    ensures { Answers view_value result
        (definition.native_call parents.now scope.now line (all_typed arguments)
        (call_of holder name (length (all_typed arguments)))
        (λ k es. form.Variadic (variadic_op.Native k) es (place_of scope.now line))) }
{
    let found = built_in(scope, line, holder, &name, arguments.items().len())?;
    let kinds = single(alloc, found.params)?;
    let operands = taken(alloc, parents, scope, line, arguments, kinds.as_slice())?;
    natively(alloc, scope, line, found, operands)
}

/// A built-in call on a receiver.
#[tactic(auto, using(check_scope::proofs::Rows::rows, crate::proofs::Arguments::arguments))]
fn native_call_on(
    alloc: Global,
    parents: &[u32],
    scope: &Scope,
    line: u32,
    receiver: Box<TypedExpr>,
    holder: Holder,
    name: Text,
    arguments: List<Typed>,
) -> Result<Typed, TypeFault>
    ensures { Answers view_value result
        (definition.native_call parents.now scope.now line (all_typed arguments)
        (call_of holder name (length (all_typed arguments)))
        (λ k es. form.Variadic (variadic_op.Native k) (more_exprs (view_expr receiver.value) es)
        (place_of scope.now line))) }
{
    let found = built_in(scope, line, holder, &name, arguments.items().len())?;
    let kinds = single(alloc, found.params)?;
    let arguments = taken(alloc, parents, scope, line, arguments, kinds.as_slice())?;
    natively(alloc, scope, line, found, behind(receiver, arguments)?)
}

/// A value that a parameter of a unit generator takes.
pub(crate) fn taken_by_param(
    alloc: Global,
    parents: &[u32],
    scope: &Scope,
    line: u32,
    value: Typed,
    parameter: Parameter,
) -> Result<Box<TypedExpr>, TypeFault>
    ensures fits { IfOk result
        (λ taken. definition.may_take parents.now (settable parameter) (view_typed value)
        ≡ true) }
    ensures taken { IfOk result
        (λ taken. view_expr taken.value
        ≡ definition.taken_as (view_typed value) (one_of parameter.elem)) }
    ensures unfit { IfErr result
        (λ why. IsFault why →
        definition.may_take parents.now (settable parameter) (view_typed value) ≡ false) }
    ensures refused { IfErr result
        (λ why. IsFault why → why ≡ typing scope.now.file line bad_arguments) }
{
    let kind = Kind::One(parameter.elem);
    if parameter.is_read_only || !fits(parents, &value, kind) {
        return Err(scope.wrong(line, FaultKind::Arguments));
    }
    taken_as(alloc, value, kind)
}

/// A parameter of a unit generator, read or set.
#[tactic(auto, using(crate::proofs::Arguments::arguments))]
fn param_call(
    alloc: Global,
    parents: &[u32],
    scope: &Scope,
    line: u32,
    ugen: Box<TypedExpr>,
    parameter: Parameter,
    arguments: List<Typed>,
) -> Result<Typed, TypeFault>
    ensures { Answers view_value result
        (definition.param_call parents.now scope.now line (view_expr ugen.value)
        (settable parameter) (all_typed arguments)) }
{
    let place = scope.place(line);
    let param = parameter.param;
    let kind = Kind::One(parameter.elem);
    let mut arguments = arguments;
    let Some(value) = arguments.pop() else {
        let read = TypedExpr::Unary {
            operation: Unary::Param(param),
            operand: ugen,
            place,
        };
        return Typed::new(alloc, read, kind, place);
    };
    if !arguments.items().is_empty() {
        return Err(scope.wrong(line, FaultKind::Arguments));
    }
    let set = TypedExpr::Binary {
        operation: Binary::SetParam(param),
        left: ugen,
        right: taken_by_param(alloc, parents, scope, line, value, parameter)?,
        place,
    };
    Typed::new(alloc, set, kind, place)
}

/// `me.yield()` or `me.exit()`, which take nothing and give nothing.
#[tactic(auto, using(crate::proofs::Arguments::arguments))]
fn plain_call(
    alloc: Global,
    scope: &Scope,
    line: u32,
    call: Leaf,
    arguments: List<Typed>,
) -> Result<Typed, TypeFault>
    ensures { Answers view_value result
        (definition.plain_call scope.now line (all_typed arguments)
        (view_expr (TypedExpr.Leaf call (place_of scope.now line)))) }
{
    if arguments.items().is_empty() {
        let place = scope.place(line);
        Typed::new(alloc, TypedExpr::Leaf(call, place), Kind::Void, place)
    } else {
        Err(scope.wrong(line, FaultKind::Arguments))
    }
}

/// The arguments, each taken as its parameter of a function.
pub(crate) fn taken_by(
    alloc: Global,
    table: &Table,
    scope: &Scope,
    line: u32,
    fun: u32,
    arguments: List<Typed>,
) -> Result<List<TypedExpr>, TypeFault>
    ensures fitted { IfOk result
        (λ taken. definition.fitted table.now.parents (all_typed arguments)
        (fun_of table.now fun).params ≡ Some (exprs_of taken)) }
    ensures unfit { IfErr result
        (λ why. IsFault why →
        definition.fitted table.now.parents (all_typed arguments) (fun_of table.now fun).params
        ≡ None) }
    ensures refused { IfErr result
        (λ why. IsFault why → why ≡ typing scope.now.file line bad_arguments) }
{
    taken(
        alloc,
        table.parents(),
        scope,
        line,
        arguments,
        table.params(fun),
    )
}

/// What a call gives.
fn callee_meaning(
    alloc: Global,
    table: &Table,
    scope: &Scope,
    line: u32,
    callee: Callee,
    arguments: List<Typed>,
) -> Result<Typed, TypeFault>
    ensures { Answers view_value result
        (definition.callee_meaning table.now scope.now line (view_callee callee)
        (all_typed arguments)) }
{
    let parents = table.parents();
    match callee {
        Callee::Numbered(fun) => numbered_call(alloc, table, scope, line, fun, arguments),
        Callee::Through { object, fun } => {
            call_through(alloc, table, scope, line, object, fun, arguments)
        }
        Callee::Method {
            receiver,
            fun,
            slot,
        } => method_call(alloc, table, scope, line, receiver, fun, slot, arguments),
        Callee::Native { holder, name } => {
            native_call(alloc, parents, scope, line, holder, name, arguments)
        }
        Callee::NativeOn {
            receiver,
            holder,
            name,
        } => native_call_on(
            alloc, parents, scope, line, receiver, holder, name, arguments,
        ),
        Callee::Param { ugen, parameter } => {
            param_call(alloc, parents, scope, line, ugen, parameter, arguments)
        }
        Callee::Yield => plain_call(alloc, scope, line, Leaf::Yield, arguments),
        Callee::Exit => plain_call(alloc, scope, line, Leaf::Exit, arguments),
    }
}

/// A call of what an expression stands for.
pub fn call_meaning(
    alloc: Global,
    table: &Table,
    scope: &Scope,
    line: u32,
    called: Denoted,
    arguments: List<Typed>,
) -> Result<Typed, TypeFault>
    ensures { Answers view_value result
        (definition.call_meaning table.now scope.now line (view_denoted called)
        (all_typed arguments)) }
{
    match called {
        Denoted::Callable(callee) => callee_meaning(alloc, table, scope, line, callee, arguments),
        _ => Err(scope.wrong(line, FaultKind::NotCallable)),
    }
}

/// A shred that begins with a call of a function by its number.
#[tactic(auto, using(check_scope::proofs::Rows::rows))]
fn spork_numbered(
    alloc: Global,
    place: Place,
    call_place: Place,
    fun: u32,
    arguments: List<TypedExpr>,
) -> Result<Typed, TypeFault>
    ensures made { IfOk result
        (λ t. view_typed t
        ≡ typed_as (form.Variadic (variadic_op.Spork fun) (exprs_of arguments) place)
        (one_of Shred) call_place) }
    ensures memory { IfErr result (λ why. why ≡ memory out_of_memory) }
{
    let spork = TypedExpr::Variadic {
        operation: Variadic::Spork(fun),
        operands: arguments,
        place,
    };
    Typed::new(alloc, spork, Kind::One(Elem::Shred), call_place)
}

/// A shred that begins with a call of a static function that is named through a value.
#[tactic(auto, using(check_scope::proofs::Rows::rows))]
fn spork_through(
    alloc: Global,
    place: Place,
    call_place: Place,
    object: Box<TypedExpr>,
    fun: u32,
    arguments: List<TypedExpr>,
) -> Result<Typed, TypeFault>
    ensures made { IfOk result
        (λ t. view_typed t
        ≡ typed_as (form.SporkOf (view_expr object.value) fun (exprs_of arguments) place)
        (one_of Shred) call_place) }
    ensures memory { IfErr result (λ why. why ≡ memory out_of_memory) }
{
    let spork = TypedExpr::SporkOf {
        object,
        fun,
        arguments,
        place,
    };
    Typed::new(alloc, spork, Kind::One(Elem::Shred), call_place)
}

/// A shred that begins with a call of a member function of a receiver.
#[tactic(auto, using(check_scope::proofs::Rows::rows))]
fn spork_method(
    alloc: Global,
    place: Place,
    call_place: Place,
    receiver: Box<TypedExpr>,
    slot: u32,
    arguments: List<TypedExpr>,
) -> Result<Typed, TypeFault>
    ensures made { IfOk result
        (λ t. view_typed t
        ≡ typed_as
        (form.Variadic (variadic_op.SporkMethod slot)
        (more_exprs (view_expr receiver.value) (exprs_of arguments)) place)
        (one_of Shred) call_place) }
    ensures memory { IfErr result (λ why. why ≡ memory out_of_memory) }
{
    let spork = TypedExpr::Variadic {
        operation: Variadic::SporkMethod(slot),
        operands: behind(receiver, arguments)?,
        place,
    };
    Typed::new(alloc, spork, Kind::One(Elem::Shred), call_place)
}

/// A shred of a declared function.
fn sporked(
    alloc: Global,
    table: &Table,
    scope: &Scope,
    line: u32,
    call_line: u32,
    callee: Callee,
    arguments: List<Typed>,
) -> Result<Typed, TypeFault>
    ensures { Answers view_value result
        (definition.sporked table.now scope.now line call_line (view_callee callee)
        (all_typed arguments)) }
{
    let place = scope.place(line);
    let call_place = scope.place(call_line);
    match callee {
        Callee::Numbered(fun) => {
            let arguments = taken_by(alloc, table, scope, call_line, fun, arguments)?;
            spork_numbered(alloc, place, call_place, fun, arguments)
        }
        Callee::Through { object, fun } => {
            let arguments = taken_by(alloc, table, scope, call_line, fun, arguments)?;
            spork_through(alloc, place, call_place, object, fun, arguments)
        }
        Callee::Method {
            receiver,
            fun,
            slot,
        } => {
            let arguments = taken_by(alloc, table, scope, call_line, fun, arguments)?;
            spork_method(alloc, place, call_place, receiver, slot, arguments)
        }
        callee => {
            callee_meaning(alloc, table, scope, call_line, callee, arguments)?;
            Err(scope.wrong(line, FaultKind::NotCallable))
        }
    }
}

/// A spork of what an expression stands for.
pub fn spork_meaning(
    alloc: Global,
    table: &Table,
    scope: &Scope,
    line: u32,
    call_line: u32,
    called: Denoted,
    arguments: List<Typed>,
) -> Result<Typed, TypeFault>
    ensures { Answers view_value result
        (definition.spork_meaning table.now scope.now line call_line (view_denoted called)
        (all_typed arguments)) }
{
    match called {
        Denoted::Callable(callee) => {
            sporked(alloc, table, scope, line, call_line, callee, arguments)
        }
        _ => Err(scope.wrong(call_line, FaultKind::NotCallable)),
    }
}
