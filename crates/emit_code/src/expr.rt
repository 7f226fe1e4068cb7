//! The code of expressions.
ghost use Rattle.std.specs.Prelude.{◌≡◌, ◌+◌, [], ◌∷◌, ◌++◌, None, OnOk, vec_len};
ghost use Rattle.ck_values.specs.declared.kind.Elem.TheVariants as elem;
ghost use Rattle.ck_code.specs.declared.instr.Instr.TheVariants.{Text as TextOf};
ghost use Rattle.ck_scheme.specs.Scheme.{at, expr_end, expr_code, args_end, args_code};
ghost use Rattle.ck_scheme.specs.Texts.{number_of};
ghost use Rattle.ck_typed.specs.View.{view_expr, exprs_of};
ghost use Rattle.ck_typed.specs.Tree.{And, Or, Choice, Assign, AssignDeclared, Update, Prefix, Postfix, NewObjects, CallOf, SporkOf};

use crate::jumps::{hold, write};
use crate::making::emit_new;
use crate::tables::Tables;
use ck_base::Text;
use ck_code::{Instr, Step};
use ck_typed::{Direction, Spot, TypedExpr};
use ck_values::{Elem, Op1, Op2, Place};
use code_pieces::{
    emit_binary, emit_leaf, emit_set, emit_stepped, emit_stepped_back, emit_unary, emit_update,
    emit_variadic, put, put_two,
};
use fixed_point::Memory;
use ugen_names::UgenKind;

/// The code of an expression, put after the code before it.
///
/// Trees are thousands high, so what is no more than an operation on operands goes on from here, and
/// all else has a function of its own, which isn't put in line: this one's frame stays small.
#[cycle(exprs)]
#[tactic(auto, using(crate::proofs::Rows::expr_rows))]
pub(crate) fn emit_expr(code: &mut Vec<Step>, e: &TypedExpr, tables: &Tables) -> Result<(), Memory>
    ensures code { OnOk result (code.new.items ≡ code.old.items
        ++ expr_code tables.now.classes.now tables.now.texts.now (vec_len code.old) (view_expr e.now)) }
    ensures len { OnOk result
        (vec_len code.new ≡ expr_end tables.now.classes.now (vec_len code.old) (view_expr e.now)) }
{
    match e {
        TypedExpr::Leaf(leaf, place) => emit_leaf(code, leaf, *place),
        TypedExpr::Text { value, place } => emit_text(code, value, *place, tables),
        TypedExpr::New { class, place } => emit_new(code, tables.classes, *class, *place),
        TypedExpr::Unary {
            operation,
            operand,
            place,
        } => {
            emit_expr(code, operand, tables)?;
            emit_unary(code, operation, *place)
        }
        TypedExpr::Binary {
            operation,
            left,
            right,
            place,
        } => {
            emit_expr(code, left, tables)?;
            emit_expr(code, right, tables)?;
            emit_binary(code, operation, *place)
        }
        TypedExpr::Variadic {
            operation,
            operands,
            place,
        } => {
            let operands = operands.items();
            emit_all(code, operands, tables)?;
            emit_variadic(code, operation, operands.len(), *place)
        }
        TypedExpr::And { left, right, place } => { emit_and(code, left, right, *place, tables) }
        TypedExpr::Or { left, right, place } => emit_or(code, left, right, *place, tables),
        TypedExpr::Choice {
            test,
            then,
            otherwise,
            place,
        } => emit_choice(code, test, then, otherwise, *place, tables),
        TypedExpr::Assign {
            value,
            spot,
            address,
            place,
        } => emit_assign(code, *spot, address.items(), value, *place, tables),
        TypedExpr::AssignDeclared {
            value,
            declaration,
            spot,
            address,
            place,
        } => {
            let address = address.items();
            emit_declared(code, *spot, address, value, declaration, *place, tables)
        }
        TypedExpr::Update {
            operator,
            value,
            spot,
            address,
            place,
        } => {
            let address = address.items();
            emit_updated(code, *operator, *spot, address, value, *place, tables)
        }
        TypedExpr::Prefix {
            direction,
            spot,
            address,
            place,
        } => emit_prefix(code, *direction, *spot, address.items(), *place, tables),
        TypedExpr::Postfix {
            direction,
            spot,
            address,
            place,
        } => emit_postfix(code, *direction, *spot, address.items(), *place, tables),
        TypedExpr::NewObjects {
            elem: Elem::Class(class),
            size,
            place,
            ..
        } => emit_objects(code, *class, size, *place, tables),
        TypedExpr::NewObjects {
            elem: Elem::Unit(kind),
            size,
            place,
            ..
        } => emit_units(code, *kind, size, *place, tables),
        // Typing makes no such array, and the scheme has no code for it.
        TypedExpr::NewObjects {
            elem: Elem::Int | Elem::Float | Elem::Dur | Elem::Time | Elem::Text | Elem::Shred,
            ..
        } => Ok(()),
        // No constructor is called yet: a program that has one isn't run.
        TypedExpr::Construct { object, .. } => emit_expr(code, object, tables),
        TypedExpr::CallOf {
            object,
            fun,
            arguments,
            place,
        } => emit_call_of(code, *fun, arguments.items(), object, *place, tables),
        TypedExpr::SporkOf {
            object,
            fun,
            arguments,
            place,
        } => emit_spork_of(code, *fun, arguments.items(), object, *place, tables),
    }
}

/// A string, by its number.
#[inline(never)]
fn emit_text(
    code: &mut Vec<Step>,
    value: &Text,
    place: Place,
    tables: &Tables,
) -> Result<(), Memory>
    ensures code { OnOk result (code.new.items ≡ code.old.items
        ++ at (TextOf (number_of tables.now.texts.now value.now)) place ∷ []) }
    ensures len { OnOk result (vec_len code.new ≡ vec_len code.old + 1) }
{
    put(code, Instr::Text(tables.texts.number(value.bytes())), place)
}

/// `left && right`: the right one where the left one isn't 0.
#[cycle(exprs)]
#[inline(never)]
#[tactic(auto, using(crate::proofs::Rows::expr_rows))]
fn emit_and(
    code: &mut Vec<Step>,
    left: &TypedExpr,
    right: &TypedExpr,
    place: Place,
    tables: &Tables,
) -> Result<(), Memory>
    ensures code { OnOk result (code.new.items ≡ code.old.items
        ++ expr_code tables.now.classes.now tables.now.texts.now (vec_len code.old)
        (And (view_expr left.now) (view_expr right.now) place)) }
    ensures len { OnOk result (vec_len code.new
        ≡ expr_end tables.now.classes.now (vec_len code.old)
        (And (view_expr left.now) (view_expr right.now) place)) }
{
    emit_expr(code, left, tables)?;
    let skip = hold(code, place)?;
    emit_expr(code, right, tables)?;
    put(code, Instr::Op1(Op1::BoolInt), place)?;
    let out = hold(code, place)?;
    let other = code.len();
    write(code, skip, Instr::JumpZero(other), place);
    put(code, Instr::Int(0), place)?;
    let end = code.len();
    write(code, out, Instr::Jump(end), place);
    Ok(())
}

/// `left || right`: the right one where the left one is 0.
#[cycle(exprs)]
#[inline(never)]
#[tactic(auto, using(crate::proofs::Rows::expr_rows))]
fn emit_or(
    code: &mut Vec<Step>,
    left: &TypedExpr,
    right: &TypedExpr,
    place: Place,
    tables: &Tables,
) -> Result<(), Memory>
    ensures code { OnOk result (code.new.items ≡ code.old.items
        ++ expr_code tables.now.classes.now tables.now.texts.now (vec_len code.old)
        (Or (view_expr left.now) (view_expr right.now) place)) }
    ensures len { OnOk result (vec_len code.new
        ≡ expr_end tables.now.classes.now (vec_len code.old)
        (Or (view_expr left.now) (view_expr right.now) place)) }
{
    emit_expr(code, left, tables)?;
    let on = hold(code, place)?;
    put(code, Instr::Int(1), place)?;
    let out = hold(code, place)?;
    let other = code.len();
    write(code, on, Instr::JumpZero(other), place);
    emit_expr(code, right, tables)?;
    put(code, Instr::Op1(Op1::BoolInt), place)?;
    let end = code.len();
    write(code, out, Instr::Jump(end), place);
    Ok(())
}

/// `test ? then : otherwise`.
#[cycle(exprs)]
#[inline(never)]
#[tactic(auto, using(crate::proofs::Rows::expr_rows))]
fn emit_choice(
    code: &mut Vec<Step>,
    test: &TypedExpr,
    then: &TypedExpr,
    otherwise: &TypedExpr,
    place: Place,
    tables: &Tables,
) -> Result<(), Memory>
    ensures code { OnOk result (code.new.items ≡ code.old.items
        ++ expr_code tables.now.classes.now tables.now.texts.now (vec_len code.old)
        (Choice (view_expr test.now) (view_expr then.now) (view_expr otherwise.now) place)) }
    ensures len { OnOk result (vec_len code.new
        ≡ expr_end tables.now.classes.now (vec_len code.old)
        (Choice (view_expr test.now) (view_expr then.now) (view_expr otherwise.now) place)) }
{
    emit_expr(code, test, tables)?;
    let over = hold(code, place)?;
    emit_expr(code, then, tables)?;
    let out = hold(code, place)?;
    let other = code.len();
    write(code, over, Instr::JumpZero(other), place);
    emit_expr(code, otherwise, tables)?;
    let end = code.len();
    write(code, out, Instr::Jump(end), place);
    Ok(())
}

/// `value => target`.
#[cycle(exprs)]
#[inline(never)]
#[tactic(auto, using(crate::proofs::Rows::expr_rows))]
fn emit_assign(
    code: &mut Vec<Step>,
    spot: Spot,
    address: &[TypedExpr],
    value: &TypedExpr,
    place: Place,
    tables: &Tables,
) -> Result<(), Memory>
    ensures code { OnOk result (code.new.items ≡ code.old.items
        ++ expr_code tables.now.classes.now tables.now.texts.now (vec_len code.old)
        (Assign (view_expr value.now) spot (exprs_of address.now) place)) }
    ensures len { OnOk result (vec_len code.new
        ≡ expr_end tables.now.classes.now (vec_len code.old)
        (Assign (view_expr value.now) spot (exprs_of address.now) place)) }
{
    emit_expr(code, value, tables)?;
    emit_all(code, address, tables)?;
    emit_set(code, spot, place)
}

/// `value => T x`, where the declaration makes something.
#[cycle(exprs)]
#[inline(never)]
#[tactic(auto, using(crate::proofs::Rows::expr_rows))]
fn emit_declared(
    code: &mut Vec<Step>,
    spot: Spot,
    address: &[TypedExpr],
    value: &TypedExpr,
    declaration: &TypedExpr,
    place: Place,
    tables: &Tables,
) -> Result<(), Memory>
    ensures code { OnOk result (code.new.items ≡ code.old.items
        ++ expr_code tables.now.classes.now tables.now.texts.now (vec_len code.old)
        (AssignDeclared (view_expr value.now) (view_expr declaration.now) spot (exprs_of address.now) place)) }
    ensures len { OnOk result (vec_len code.new
        ≡ expr_end tables.now.classes.now (vec_len code.old)
        (AssignDeclared (view_expr value.now) (view_expr declaration.now) spot (exprs_of address.now) place)) }
{
    emit_expr(code, value, tables)?;
    emit_expr(code, declaration, tables)?;
    put(code, Instr::Drop, place)?;
    emit_all(code, address, tables)?;
    emit_set(code, spot, place)
}

/// `value op=> target`.
#[cycle(exprs)]
#[inline(never)]
#[tactic(auto, using(crate::proofs::Rows::expr_rows))]
fn emit_updated(
    code: &mut Vec<Step>,
    operator: Op2,
    spot: Spot,
    address: &[TypedExpr],
    value: &TypedExpr,
    place: Place,
    tables: &Tables,
) -> Result<(), Memory>
    ensures code { OnOk result (code.new.items ≡ code.old.items
        ++ expr_code tables.now.classes.now tables.now.texts.now (vec_len code.old)
        (Update operator (view_expr value.now) spot (exprs_of address.now) place)) }
    ensures len { OnOk result (vec_len code.new
        ≡ expr_end tables.now.classes.now (vec_len code.old)
        (Update operator (view_expr value.now) spot (exprs_of address.now) place)) }
{
    emit_expr(code, value, tables)?;
    emit_all(code, address, tables)?;
    emit_update(code, spot, operator, place)
}

/// `++target` and `--target`.
#[cycle(exprs)]
#[inline(never)]
#[tactic(auto, using(crate::proofs::Rows::expr_rows))]
fn emit_prefix(
    code: &mut Vec<Step>,
    direction: Direction,
    spot: Spot,
    address: &[TypedExpr],
    place: Place,
    tables: &Tables,
) -> Result<(), Memory>
    ensures code { OnOk result (code.new.items ≡ code.old.items
        ++ expr_code tables.now.classes.now tables.now.texts.now (vec_len code.old)
        (Prefix direction spot (exprs_of address.now) place)) }
    ensures len { OnOk result (vec_len code.new
        ≡ expr_end tables.now.classes.now (vec_len code.old)
        (Prefix direction spot (exprs_of address.now) place)) }
{
    put(code, Instr::Int(1), place)?;
    emit_all(code, address, tables)?;
    emit_stepped(code, spot, direction, place)
}

/// `target++` and `target--`.
#[cycle(exprs)]
#[inline(never)]
#[tactic(auto, using(crate::proofs::Rows::expr_rows))]
fn emit_postfix(
    code: &mut Vec<Step>,
    direction: Direction,
    spot: Spot,
    address: &[TypedExpr],
    place: Place,
    tables: &Tables,
) -> Result<(), Memory>
    ensures code { OnOk result (code.new.items ≡ code.old.items
        ++ expr_code tables.now.classes.now tables.now.texts.now (vec_len code.old)
        (Postfix direction spot (exprs_of address.now) place)) }
    ensures len { OnOk result (vec_len code.new
        ≡ expr_end tables.now.classes.now (vec_len code.old)
        (Postfix direction spot (exprs_of address.now) place)) }
{
    put(code, Instr::Int(1), place)?;
    emit_all(code, address, tables)?;
    emit_stepped_back(code, spot, direction, place)
}

/// So many new objects of a class in an array: a round for each.
#[cycle(exprs)]
#[inline(never)]
#[tactic(auto, using(crate::proofs::Rows::expr_rows))]
fn emit_objects(
    code: &mut Vec<Step>,
    class: u32,
    size: &TypedExpr,
    place: Place,
    tables: &Tables,
) -> Result<(), Memory>
    ensures code { OnOk result (code.new.items ≡ code.old.items
        ++ expr_code tables.now.classes.now tables.now.texts.now (vec_len code.old)
        (NewObjects (elem.Class class) (view_expr size.now) None place)) }
    ensures len { OnOk result (vec_len code.new
        ≡ expr_end tables.now.classes.now (vec_len code.old)
        (NewObjects (elem.Class class) (view_expr size.now) None place)) }
{
    emit_expr(code, size, tables)?;
    put_two(code, Instr::Row(Elem::Class(class)), Instr::Int(0), place)?;
    let round = code.len();
    let over = hold(code, place)?;
    put(code, Instr::Turn, place)?;
    emit_new(code, tables.classes, class, place)?;
    put_two(code, Instr::Fill, Instr::Jump(round), place)?;
    let end = code.len();
    write(code, over, Instr::Each(end), place);
    Ok(())
}

/// So many new unit generators in an array: a round for each.
#[cycle(exprs)]
#[inline(never)]
#[tactic(auto, using(crate::proofs::Rows::expr_rows))]
fn emit_units(
    code: &mut Vec<Step>,
    kind: UgenKind,
    size: &TypedExpr,
    place: Place,
    tables: &Tables,
) -> Result<(), Memory>
    ensures code { OnOk result (code.new.items ≡ code.old.items
        ++ expr_code tables.now.classes.now tables.now.texts.now (vec_len code.old)
        (NewObjects (elem.Unit kind) (view_expr size.now) None place)) }
    ensures len { OnOk result (vec_len code.new
        ≡ expr_end tables.now.classes.now (vec_len code.old)
        (NewObjects (elem.Unit kind) (view_expr size.now) None place)) }
{
    emit_expr(code, size, tables)?;
    put_two(code, Instr::Row(Elem::Unit(kind)), Instr::Int(0), place)?;
    let round = code.len();
    let over = hold(code, place)?;
    put_two(code, Instr::Turn, Instr::Ugen(kind), place)?;
    put_two(code, Instr::Fill, Instr::Jump(round), place)?;
    let end = code.len();
    write(code, over, Instr::Each(end), place);
    Ok(())
}

/// A call of a static function of an object, which is dropped.
#[cycle(exprs)]
#[inline(never)]
#[tactic(auto, using(crate::proofs::Rows::expr_rows))]
fn emit_call_of(
    code: &mut Vec<Step>,
    fun: u32,
    arguments: &[TypedExpr],
    object: &TypedExpr,
    place: Place,
    tables: &Tables,
) -> Result<(), Memory>
    ensures code { OnOk result (code.new.items ≡ code.old.items
        ++ expr_code tables.now.classes.now tables.now.texts.now (vec_len code.old)
        (CallOf (view_expr object.now) fun (exprs_of arguments.now) place)) }
    ensures len { OnOk result (vec_len code.new
        ≡ expr_end tables.now.classes.now (vec_len code.old)
        (CallOf (view_expr object.now) fun (exprs_of arguments.now) place)) }
{
    emit_expr(code, object, tables)?;
    put(code, Instr::Drop, place)?;
    emit_all(code, arguments, tables)?;
    put(code, Instr::Call(fun), place)
}

/// A spork of a static function of an object, which is dropped.
#[cycle(exprs)]
#[inline(never)]
#[tactic(auto, using(crate::proofs::Rows::expr_rows))]
fn emit_spork_of(
    code: &mut Vec<Step>,
    fun: u32,
    arguments: &[TypedExpr],
    object: &TypedExpr,
    place: Place,
    tables: &Tables,
) -> Result<(), Memory>
    ensures code { OnOk result (code.new.items ≡ code.old.items
        ++ expr_code tables.now.classes.now tables.now.texts.now (vec_len code.old)
        (SporkOf (view_expr object.now) fun (exprs_of arguments.now) place)) }
    ensures len { OnOk result (vec_len code.new
        ≡ expr_end tables.now.classes.now (vec_len code.old)
        (SporkOf (view_expr object.now) fun (exprs_of arguments.now) place)) }
{
    emit_expr(code, object, tables)?;
    put(code, Instr::Drop, place)?;
    emit_all(code, arguments, tables)?;
    put(code, Instr::Spork(fun), place)
}

/// The code of expressions, one after another, put after the code before it.
#[cycle(exprs)]
#[tactic(auto, using(crate::proofs::Rows::expr_rows))]
pub(crate) fn emit_all(
    code: &mut Vec<Step>,
    all: &[TypedExpr],
    tables: &Tables,
) -> Result<(), Memory>
    ensures code { OnOk result (code.new.items ≡ code.old.items
        ++ args_code tables.now.classes.now tables.now.texts.now (vec_len code.old) (exprs_of all.now)) }
    ensures len { OnOk result
        (vec_len code.new ≡ args_end tables.now.classes.now (vec_len code.old) (exprs_of all.now)) }
{
    for e in all {
        emit_expr(code, e, tables)?;
    }
    Ok(())
}
