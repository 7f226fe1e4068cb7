//! The chuck operator.
ghost use Rattle.std.specs.Prelude.{◌≡◌, [], ◌∷◌, Some, None, IfOk, IfErr};
ghost use Rattle.ck_typed.specs.Tree as form;
ghost use Rattle.ck_typed.specs.Tree.{no_exprs, more_exprs};
ghost use Rattle.ck_typed.specs.declared.operation.Binary.TheVariants as binary_op;
ghost use Rattle.ck_typed.specs.View.{view_expr, exprs_of};
ghost use Rattle.type_rules.specs.Calls.{call_of};
ghost use Rattle.type_rules.specs.ParameterRows.{settable};
ghost use Rattle.type_table.specs.Answer.{gives, IsFault};
ghost use Rattle.type_table.specs.Table.{fun_of};
ghost use Rattle.type_table.specs.declared.fault.FaultKind.TheVariants.{Arguments as bad_arguments};
ghost use Rattle.fixed_point.specs.Wanting.{out_of_memory};
ghost use Rattle.type_table.specs.declared.fault.TypeFault.TheVariants.{Memory as memory, Typing as typing};
ghost use Rattle.check_scope.specs.Expressions as definition;
ghost use Rattle.check_scope.specs.Denotations.{value as value_of, at, declared, through, method, param};
ghost use Rattle.check_scope.specs.Scope.{place as place_of};
ghost use Rattle.check_scope.specs.View.{view_typed, view_callee, view_declaration, view_denoted, Answers, view_value};

use crate::calls::{built_in, native_call, numbered_call, one_taken, single, taken_by_param};
use check_scope::{
    Callee, Declaration, Denoted, Scope, Target, Typed, as_value, fits, push, taken_as, widened_if,
};
use ck_base::{List, Text};
use ck_syntax::{BinaryOp, ChuckOp};
use ck_typed::{Binary, TypedExpr};
use ck_values::{Elem, Kind};
use std::alloc::Global;
use type_rules::{Holder, Joined, Parameter, are_references, join};
use type_table::{FaultKind, Table, TypeFault};

/// Whether a type is that of unit generators.
fn is_ugen(kind: Kind) -> bool
    ensures { result ≡ definition.is_ugen kind }
{
    matches!(kind, Kind::One(Elem::Unit(_)))
}

/// One argument alone.
fn alone(alloc: Global, argument: Typed) -> Result<List<Typed>, TypeFault>
    ensures one { IfOk result (λ all. all ≡ argument ∷ []) }
    ensures memory { IfErr result (λ why. why ≡ memory out_of_memory) }
{
    let mut all = Vec::new(alloc);
    push(&mut all, argument)?;
    Ok(List::from_vec(all))
}

/// An argument chucked to a built-in call on a receiver.
fn chuck_native_on(
    alloc: Global,
    parents: &[u32],
    scope: &Scope,
    line: u32,
    argument: Typed,
    receiver: Box<TypedExpr>,
    holder: Holder,
    name: Text,
) -> Result<Typed, TypeFault>
    ensures { Answers view_value result
        (definition.native_call parents.now scope.now line (view_typed argument ∷ [])
        (call_of holder name 1)
        (λ k es. form.Binary (binary_op.ChuckNative k)
        (definition.first_of es (view_expr argument.expr.value)) (view_expr receiver.value)
        (place_of scope.now line))) }
{
    let found = built_in(scope, line, holder, &name, 1)?;
    let kinds = single(alloc, found.params)?;
    let argument = one_taken(alloc, parents, scope, line, argument, kinds.as_slice())?;
    let place = scope.place(line);
    let call = TypedExpr::Binary {
        operation: Binary::ChuckNative(found.native),
        left: argument,
        right: receiver,
        place,
    };
    Typed::new(alloc, call, found.gives, place)
}

/// A value chucked to a parameter of a unit generator.
fn chuck_param(
    alloc: Global,
    table: &Table,
    scope: &Scope,
    line: u32,
    value: Typed,
    ugen: Box<TypedExpr>,
    parameter: Parameter,
) -> Result<Typed, TypeFault>
    ensures { Answers view_value result
        (definition.chuck_callee table.now scope.now line (view_typed value)
        (param (view_expr ugen.value) (settable parameter))) }
{
    let parents = table.parents();
    let place = scope.place(line);
    let set = TypedExpr::Binary {
        operation: Binary::ChuckParam(parameter.param),
        left: taken_by_param(alloc, parents, scope, line, value, parameter)?,
        right: ugen,
        place,
    };
    Typed::new(alloc, set, Kind::One(parameter.elem), place)
}

/// One argument, taken as the parameter of a function.
fn taken_by(
    alloc: Global,
    table: &Table,
    scope: &Scope,
    line: u32,
    fun: u32,
    argument: Typed,
) -> Result<Box<TypedExpr>, TypeFault>
    ensures fitted { IfOk result
        (λ taken. definition.fitted table.now.parents (view_typed argument ∷ [])
        (fun_of table.now fun).params ≡ Some (more_exprs (view_expr taken.value) no_exprs)) }
    ensures unfit { IfErr result
        (λ why. IsFault why →
        definition.fitted table.now.parents (view_typed argument ∷ [])
        (fun_of table.now fun).params ≡ None) }
    ensures refused { IfErr result
        (λ why. IsFault why → why ≡ typing scope.now.file line bad_arguments) }
{
    let parents = table.parents();
    one_taken(alloc, parents, scope, line, argument, table.params(fun))
}

/// A call with one argument of a static function that is named through a value.
fn chuck_through(
    alloc: Global,
    table: &Table,
    scope: &Scope,
    line: u32,
    argument: Typed,
    object: Box<TypedExpr>,
    fun: u32,
) -> Result<Typed, TypeFault>
    ensures { Answers view_value result
        (definition.chuck_callee table.now scope.now line (view_typed argument)
        (through (view_expr object.value) fun)) }
{
    let argument = taken_by(alloc, table, scope, line, fun, argument)?;
    let place = scope.place(line);
    let call = TypedExpr::Binary {
        operation: Binary::ChuckCallOf(fun),
        left: argument,
        right: object,
        place,
    };
    Typed::new(alloc, call, table.result(fun), place)
}

/// A call with one argument of a member function of a receiver.
fn chuck_method(
    alloc: Global,
    table: &Table,
    scope: &Scope,
    line: u32,
    argument: Typed,
    receiver: Box<TypedExpr>,
    fun: u32,
    slot: u32,
) -> Result<Typed, TypeFault>
    ensures { Answers view_value result
        (definition.chuck_callee table.now scope.now line (view_typed argument)
        (method (view_expr receiver.value) fun slot)) }
{
    let argument = taken_by(alloc, table, scope, line, fun, argument)?;
    let place = scope.place(line);
    let call = TypedExpr::Binary {
        operation: Binary::ChuckMethod(slot),
        left: argument,
        right: receiver,
        place,
    };
    Typed::new(alloc, call, table.result(fun), place)
}

/// `l => f`: the call with one argument.
fn chuck_callee(
    alloc: Global,
    table: &Table,
    scope: &Scope,
    line: u32,
    argument: Typed,
    callee: Callee,
) -> Result<Typed, TypeFault>
    ensures { Answers view_value result
        (definition.chuck_callee table.now scope.now line (view_typed argument)
        (view_callee callee)) }
{
    let parents = table.parents();
    match callee {
        Callee::Numbered(fun) => {
            numbered_call(alloc, table, scope, line, fun, alone(alloc, argument)?)
        }
        Callee::Through { object, fun } => {
            chuck_through(alloc, table, scope, line, argument, object, fun)
        }
        Callee::Method {
            receiver,
            fun,
            slot,
        } => chuck_method(alloc, table, scope, line, argument, receiver, fun, slot),
        Callee::Native { holder, name } => {
            let arguments = alone(alloc, argument)?;
            native_call(alloc, parents, scope, line, holder, name, arguments)
        }
        Callee::NativeOn {
            receiver,
            holder,
            name,
        } => chuck_native_on(
            alloc, parents, scope, line, argument, receiver, holder, name,
        ),
        Callee::Param { ugen, parameter } => {
            chuck_param(alloc, table, scope, line, argument, ugen, parameter)
        }
        Callee::Yield | Callee::Exit => Err(scope.wrong(line, FaultKind::Arguments)),
    }
}

/// A value to a variable, field or item.
#[tactic(auto, using(check_scope::proofs::Rows::rows))]
fn assigned(
    alloc: Global,
    parents: &[u32],
    scope: &Scope,
    line: u32,
    value: Typed,
    target: Target,
) -> Result<Typed, TypeFault>
    ensures { Answers view_value result
        (definition.assigned parents.now scope.now line (view_typed value) target.spot
        (exprs_of target.address) target.kind) }
{
    let kind = target.kind;
    if !fits(parents, &value, kind) {
        return Err(scope.wrong(line, FaultKind::Mismatch));
    }
    let place = scope.place(line);
    let assign = TypedExpr::Assign {
        value: taken_as(alloc, value, kind)?,
        spot: target.spot,
        address: target.address,
        place,
    };
    Typed::new(alloc, assign, kind, place)
}

/// `=>` assigns no references.
fn chuck_assigned(
    alloc: Global,
    parents: &[u32],
    scope: &Scope,
    line: u32,
    value: Typed,
    target: Target,
) -> Result<Typed, TypeFault>
    ensures { Answers view_value result
        (definition.chuck_assigned parents.now scope.now line (view_typed value) target.spot
        (exprs_of target.address) target.kind) }
{
    if are_references(target.kind) {
        return Err(scope.wrong(line, FaultKind::NotAssignable));
    }
    assigned(alloc, parents, scope, line, value, target)
}

/// A value to a declaration that makes an object or has a size.
#[tactic(auto, using(check_scope::proofs::Rows::rows))]
fn assigned_to_made(
    alloc: Global,
    scope: &Scope,
    line: u32,
    value: Box<TypedExpr>,
    declaration: Declaration,
) -> Result<Typed, TypeFault>
    ensures typed { IfOk result
        (λ t. definition.value_at scope.now line
        (form.AssignDeclared (view_expr value.value) (view_expr declaration.alone.value)
        declaration.target.spot (exprs_of declaration.target.address) (place_of scope.now line))
        declaration.target.kind ≡ gives (value_of (view_typed t))) }
    ensures memory { IfErr result (λ why. why ≡ memory out_of_memory) }
{
    let place = scope.place(line);
    let target = declaration.target;
    let assign = TypedExpr::AssignDeclared {
        value,
        declaration: declaration.alone,
        spot: target.spot,
        address: target.address,
        place,
    };
    Typed::new(alloc, assign, target.kind, place)
}

/// A value to a declaration.
fn declared_assigned(
    alloc: Global,
    parents: &[u32],
    scope: &Scope,
    line: u32,
    value: Typed,
    declaration: Declaration,
) -> Result<Typed, TypeFault>
    ensures { Answers view_value result
        (definition.declared_assigned parents.now scope.now line (view_typed value)
        (view_declaration declaration)) }
{
    let kind = declaration.target.kind;
    if !fits(parents, &value, kind) {
        return Err(scope.wrong(line, FaultKind::Mismatch));
    }
    if !declaration.makes {
        return assigned(alloc, parents, scope, line, value, declaration.target);
    }
    let value = taken_as(alloc, value, kind)?;
    assigned_to_made(alloc, scope, line, value, declaration)
}

/// A connection between two unit generators.
fn connected(
    alloc: Global,
    scope: &Scope,
    line: u32,
    from: Typed,
    to: Typed,
) -> Result<Typed, TypeFault>
    ensures typed { IfOk result
        (λ t. definition.connected scope.now line (view_typed from) (view_typed to)
        ≡ gives (value_of (view_typed t))) }
    ensures memory { IfErr result (λ why. why ≡ memory out_of_memory) }
{
    let place = scope.place(line);
    let connect = TypedExpr::Binary {
        operation: Binary::Connect,
        left: from.expr,
        right: to.expr,
        place,
    };
    Typed::new(alloc, connect, to.kind, place)
}

/// `l => r` to a variable, field or item.
fn chuck_target(
    alloc: Global,
    parents: &[u32],
    scope: &Scope,
    line: u32,
    right_line: u32,
    value: Typed,
    target: Target,
) -> Result<Typed, TypeFault>
    ensures { Answers view_value result
        (definition.chuck_place parents.now scope.now line right_line (view_typed value)
        (at target.spot (exprs_of target.address) target.kind)) }
{
    if is_ugen(value.kind) && is_ugen(target.kind) {
        let to = as_value(alloc, scope, right_line, Denoted::Target(target))?;
        return connected(alloc, scope, line, value, to);
    }
    chuck_assigned(alloc, parents, scope, line, value, target)
}

/// `l => r` to a declaration.
fn chuck_declared(
    alloc: Global,
    parents: &[u32],
    scope: &Scope,
    line: u32,
    right_line: u32,
    value: Typed,
    declaration: Declaration,
) -> Result<Typed, TypeFault>
    ensures { Answers view_value result
        (definition.chuck_place parents.now scope.now line right_line (view_typed value)
        (declared (view_declaration declaration))) }
{
    if is_ugen(value.kind) && is_ugen(declaration.target.kind) {
        let to = as_value(alloc, scope, right_line, Denoted::Declared(declaration))?;
        return connected(alloc, scope, line, value, to);
    }
    if are_references(declaration.target.kind) {
        return Err(scope.wrong(line, FaultKind::NotAssignable));
    }
    declared_assigned(alloc, parents, scope, line, value, declaration)
}

/// `l => r` to what isn't called: a connection, or an assignment.
fn chuck_place(
    alloc: Global,
    parents: &[u32],
    scope: &Scope,
    line: u32,
    right_line: u32,
    value: Typed,
    right: Denoted,
) -> Result<Typed, TypeFault>
    ensures { Answers view_value result
        (definition.chuck_place parents.now scope.now line right_line (view_typed value)
        (view_denoted right)) }
{
    match right {
        Denoted::Target(target) => {
            chuck_target(alloc, parents, scope, line, right_line, value, target)
        }
        Denoted::Declared(declaration) => {
            chuck_declared(alloc, parents, scope, line, right_line, value, declaration)
        }
        Denoted::Value(to) if is_ugen(value.kind) && is_ugen(to.kind) => {
            connected(alloc, scope, line, value, to)
        }
        _ => Err(scope.wrong(line, FaultKind::NotAssignable)),
    }
}

/// `l => r`
fn chuck_to(
    alloc: Global,
    table: &Table,
    scope: &Scope,
    line: u32,
    right_line: u32,
    value: Typed,
    right: Denoted,
) -> Result<Typed, TypeFault>
    ensures { Answers view_value result
        (definition.chuck_to table.now scope.now line right_line (view_typed value)
        (view_denoted right)) }
{
    match right {
        Denoted::Callable(callee) => chuck_callee(alloc, table, scope, line, value, callee),
        right => chuck_place(
            alloc,
            table.parents(),
            scope,
            line,
            right_line,
            value,
            right,
        ),
    }
}

/// `l @=> r`
fn assign_to(
    alloc: Global,
    parents: &[u32],
    scope: &Scope,
    line: u32,
    value: Typed,
    right: Denoted,
) -> Result<Typed, TypeFault>
    ensures { Answers view_value result
        (definition.assign_to parents.now scope.now line (view_typed value) (view_denoted right)) }
{
    match right {
        Denoted::Target(target) => assigned(alloc, parents, scope, line, value, target),
        Denoted::Declared(declaration) => {
            declared_assigned(alloc, parents, scope, line, value, declaration)
        }
        _ => Err(scope.wrong(line, FaultKind::NotAssignable)),
    }
}

/// The operator in `op=>`.
fn updating(operator: ChuckOp) -> Option<BinaryOp>
    ensures { result ≡ definition.updating operator }
{
    match operator {
        ChuckOp::Add => Some(BinaryOp::Add),
        ChuckOp::Sub => Some(BinaryOp::Sub),
        ChuckOp::Mul => Some(BinaryOp::Mul),
        ChuckOp::Div => Some(BinaryOp::Div),
        ChuckOp::Mod => Some(BinaryOp::Mod),
        ChuckOp::And => Some(BinaryOp::And),
        ChuckOp::Or => Some(BinaryOp::Or),
        ChuckOp::Xor => Some(BinaryOp::Xor),
        _ => None,
    }
}

/// `r op l` to r, where it fits.
#[tactic(auto, using(check_scope::proofs::Rows::rows))]
fn updated_by(
    alloc: Global,
    parents: &[u32],
    scope: &Scope,
    line: u32,
    value: Typed,
    target: Target,
    joined: Option<Joined>,
) -> Result<Typed, TypeFault>
    ensures { Answers view_value result
        (definition.updated_by parents.now scope.now line (view_typed value) target.spot
        (exprs_of target.address) target.kind joined) }
{
    let Some(joined) = joined else {
        return Err(scope.wrong(line, FaultKind::Mismatch));
    };
    let kind = target.kind;
    if !type_rules::fits(parents, Kind::One(joined.gives), kind) || joined.widens_left {
        return Err(scope.wrong(line, FaultKind::Mismatch));
    }
    let place = scope.place(line);
    let update = TypedExpr::Update {
        operator: joined.code,
        value: widened_if(alloc, joined.widens_right, value)?,
        spot: target.spot,
        address: target.address,
        place,
    };
    Typed::new(alloc, update, kind, place)
}

/// `l op=> r`
fn update_to(
    alloc: Global,
    parents: &[u32],
    scope: &Scope,
    line: u32,
    operator: BinaryOp,
    value: Typed,
    right: Denoted,
) -> Result<Typed, TypeFault>
    ensures { Answers view_value result
        (definition.update_to parents.now scope.now line operator (view_typed value)
        (view_denoted right)) }
{
    match right {
        Denoted::Target(target) => {
            let joined = join(parents, operator, target.kind, value.kind);
            updated_by(alloc, parents, scope, line, value, target, joined)
        }
        _ => Err(scope.wrong(line, FaultKind::NotAssignable)),
    }
}

/// `l op=> r`, where that is an operator.
fn update_or(
    alloc: Global,
    parents: &[u32],
    scope: &Scope,
    line: u32,
    value: Typed,
    right: Denoted,
    operator: Option<BinaryOp>,
) -> Result<Typed, TypeFault>
    ensures { Answers view_value result
        (definition.update_or parents.now scope.now line (view_typed value) (view_denoted right)
        operator) }
{
    match operator {
        Some(operator) => update_to(alloc, parents, scope, line, operator, value, right),
        None => Err(scope.wrong(line, FaultKind::NotAssignable)),
    }
}

/// `=<` takes two unit generators.
fn disconnected(
    alloc: Global,
    scope: &Scope,
    line: u32,
    from: Typed,
    to: Typed,
) -> Result<Typed, TypeFault>
    ensures { Answers view_value result
        (definition.disconnected scope.now line (view_typed from) (view_typed to)) }
{
    if !is_ugen(from.kind) || !is_ugen(to.kind) {
        return Err(scope.wrong(line, FaultKind::Mismatch));
    }
    let place = scope.place(line);
    let disconnect = TypedExpr::Binary {
        operation: Binary::Disconnect,
        left: from.expr,
        right: to.expr,
        place,
    };
    Typed::new(alloc, disconnect, to.kind, place)
}

/// What is chucked to anything but `now`.
pub fn chuck_meaning(
    alloc: Global,
    table: &Table,
    scope: &Scope,
    line: u32,
    right_line: u32,
    operator: ChuckOp,
    value: Typed,
    right: Denoted,
) -> Result<Typed, TypeFault>
    ensures { Answers view_value result
        (definition.chuck_meaning table.now scope.now line right_line operator (view_typed value)
        (view_denoted right)) }
{
    let parents = table.parents();
    match operator {
        ChuckOp::Chuck => chuck_to(alloc, table, scope, line, right_line, value, right),
        ChuckOp::Assign => assign_to(alloc, parents, scope, line, value, right),
        ChuckOp::Unchuck => {
            let to = as_value(alloc, scope, right_line, right)?;
            disconnected(alloc, scope, line, value, to)
        }
        _ => update_or(
            alloc,
            parents,
            scope,
            line,
            value,
            right,
            updating(operator),
        ),
    }
}
