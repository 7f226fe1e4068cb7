//! Whole expressions: operands come first, from left to right, and then the expression itself.
#![tactic(auto, using(ck_syntax::proofs::Views::line_is))]

ghost use Rattle.std.specs.Prelude.{◌≡◌, ◌+◌, ◌^◌, ◌<◌, ◌≤◌, ℕ, None, Some, length, IsSome, IfOk, IfErr};
ghost use Rattle.ck_syntax.specs.Size.{expr_size, exprs_size, brackets_size, declr_size};
ghost use Rattle.ck_syntax.specs.declared.declaration.DeclHead.{DeclHead as RawHead};
ghost use Rattle.ck_syntax.specs.Tree as tree;
ghost use Rattle.ck_syntax.specs.Tree.{no_exprs, no_brackets};
ghost use Rattle.ck_syntax.specs.View.{view_expr, exprs_of, brackets_of, view_declr};
ghost use Rattle.check_scope.specs.Expressions as definition;
ghost use Rattle.check_scope.specs.View.{meant, valued, all_valued, view_making, Answers};
ghost use Rattle.check_exprs.specs.Operands.{first_operand};
ghost use Rattle.type_table.specs.Answer.{gives, fault, IsFault};

use crate::waits::{chucked, member_or_wait, wait_word};
use check_calls::{call_meaning, spork_meaning};
use check_names::{declaration_meaning, name_meaning};
use check_operations::{
    array_meaning, binary_meaning, cast_meaning, choice_meaning, dur_meaning, float, int,
    item_meaning, new_meaning, new_with_meaning, postfix_meaning, prefix_meaning, text, unit,
    unit_in, word_meaning,
};
use check_scope::{Denoted, Making, Scope, Typed, as_value, boxed, push};
use ck_base::{List, Text};
use ck_syntax::{
    Base, BinaryOp, Bracket, ChuckOp, DeclHead, Declarator, DeclaratorTail, Expr, ExprKind,
    TypeName,
};
use std::alloc::Global;
use type_table::{FaultKind, Table, TypeFault};

/// What an expression stands for.
///
/// A tree of thousands of operands in one another is accepted, where each is the first of the next.
/// So this function holds no more than the first operand, and leaves the rest to others.
#[cycle(expressions)]
#[inline(never)]
fn meaning(alloc: Global, table: &Table, scope: &mut Scope, e: &Expr) -> Result<Denoted, TypeFault>
    requires room { length scope.old.locals + expr_size (view_expr e.now) < 2 ^ 32 }
    ensures meant { Answers (λ m. meant m scope.new) result
        (definition.meaning table.now scope.old (view_expr e.now)) }
    ensures grown { length scope.new.locals ≤ length scope.old.locals
        + expr_size (view_expr e.now) }
{
    match &e.kind {
        ExprKind::Call {
            callee: operand,
            ..
        }
        | ExprKind::Index { array: operand, .. }
        | ExprKind::Member {
            object: operand,
            ..
        }
        | ExprKind::Postfix { operand, .. }
        | ExprKind::Dur { count: operand, .. }
        | ExprKind::Prefix { operand, .. }
        | ExprKind::Cast { value: operand, .. }
        | ExprKind::Binary { left: operand, .. }
        | ExprKind::Cond { test: operand, .. }
        | ExprKind::Chuck { left: operand, .. } => {
            let first = meaning(alloc, table, scope, operand)?;
            behind(alloc, table, scope, e, first)
        }
        _ => apart(alloc, table, scope, e),
    }
}

/// What an expression stands for that begins with no operand.
#[cycle(expressions)]
#[inline(never)]
fn apart(alloc: Global, table: &Table, scope: &mut Scope, e: &Expr) -> Result<Denoted, TypeFault>
    requires apart { first_operand (view_expr e.now) ≡ None }
    requires room { length scope.old.locals + expr_size (view_expr e.now) < 2 ^ 32 }
    ensures meant { Answers (λ m. meant m scope.new) result
        (definition.meaning table.now scope.old (view_expr e.now)) }
    ensures grown { length scope.new.locals ≤ length scope.old.locals
        + expr_size (view_expr e.now) }
{
    let line = e.line;
    match &e.kind {
        ExprKind::Int(value) => Ok(Denoted::Value(int(alloc, scope, line, *value)?)),
        ExprKind::Float(value) => Ok(Denoted::Value(float(alloc, scope, line, *value)?)),
        ExprKind::Text(value) => Ok(Denoted::Value(text(alloc, scope, line, value)?)),
        ExprKind::Name(name) => name_meaning(alloc, table, scope, line, name),
        ExprKind::Constant(constant) => {
            Ok(Denoted::Value(word_meaning(alloc, table, scope, line, *constant)?))
        }
        ExprKind::Unit(u) => Ok(Denoted::Value(unit(alloc, scope, line, *u)?)),
        ExprKind::Paren(inner) => paren(alloc, table, scope, line, inner),
        ExprKind::Array(items) => array(alloc, table, scope, line, items.items()),
        ExprKind::New { base, sizes } => new(alloc, table, scope, line, base, sizes.items()),
        ExprKind::NewWith { base, arguments } => {
            new_with(alloc, table, scope, line, base, arguments.items())
        }
        ExprKind::Spork(call) => spork(alloc, table, scope, line, call),
        ExprKind::Declare { head, declarator } => {
            declare(alloc, table, scope, line, head, declarator)
        }
        ExprKind::Call { .. }
        | ExprKind::Index { .. }
        | ExprKind::Member { .. }
        | ExprKind::Postfix { .. }
        | ExprKind::Dur { .. }
        | ExprKind::Prefix { .. }
        | ExprKind::Cast { .. }
        | ExprKind::Binary { .. }
        | ExprKind::Cond { .. }
        | ExprKind::Chuck { .. } => unreachable!(),
    }
}

/// What an expression stands for whose first operand stands for `first`.
#[cycle(expressions)]
#[inline(never)]
fn behind(
    alloc: Global,
    table: &Table,
    scope: &mut Scope,
    e: &Expr,
    first: Denoted,
) -> Result<Denoted, TypeFault>
    requires behind { IsSome (first_operand (view_expr e.now)) }
    requires room { (operand : _) → first_operand (view_expr e.now) ≡ Some operand
        → length scope.old.locals + expr_size (view_expr e.now) < 2 ^ 32 + expr_size operand }
    ensures meant { (before : _) (operand : _) → first_operand (view_expr e.now) ≡ Some operand
        → definition.meaning table.now before operand ≡ gives (meant first scope.old)
        → Answers (λ m. meant m scope.new) result
        (definition.meaning table.now before (view_expr e.now)) }
    ensures grown { (operand : _) → first_operand (view_expr e.now) ≡ Some operand
        → length scope.new.locals + expr_size operand
        ≤ length scope.old.locals + expr_size (view_expr e.now) }
{
    let line = e.line;
    match &e.kind {
        ExprKind::Call {
            callee: _,
            arguments,
        } => call(alloc, table, scope, line, first, arguments.items()),
        ExprKind::Index { array, index } => item(alloc, table, scope, line, array, first, index),
        ExprKind::Member { object, name } => member(alloc, table, scope, line, object, first, name),
        ExprKind::Postfix {
            operand: _,
            operator,
        } => {
            let step = postfix_meaning(alloc, scope, line, *operator, first)?;
            Ok(Denoted::Value(step))
        }
        ExprKind::Dur { count, unit } => dur(alloc, table, scope, line, count, first, unit),
        ExprKind::Prefix { operator, operand } => {
            let prefix = prefix_meaning(alloc, scope, line, operand.line, *operator, first)?;
            Ok(Denoted::Value(prefix))
        }
        ExprKind::Cast { value, target } => cast(alloc, table, scope, line, value, first, target),
        ExprKind::Binary {
            left,
            operator,
            right,
        } => binary(alloc, table, scope, line, left, first, *operator, right),
        ExprKind::Cond {
            test,
            then,
            otherwise,
        } => choice(alloc, table, scope, line, test, first, then, otherwise),
        ExprKind::Chuck {
            left,
            operator,
            right,
        } => chuck(alloc, table, scope, line, left, first, *operator, right),
        ExprKind::Int(_)
        | ExprKind::Float(_)
        | ExprKind::Text(_)
        | ExprKind::Name(_)
        | ExprKind::Constant(_)
        | ExprKind::Unit(_)
        | ExprKind::Paren(_)
        | ExprKind::Array(_)
        | ExprKind::New { .. }
        | ExprKind::NewWith { .. }
        | ExprKind::Spork(_)
        | ExprKind::Declare { .. } => unreachable!(),
    }
}

/// The value of an expression, with its type; what it declares is in the scope behind it (ChucK
/// Language Specification, "Operators", "Types, Values, and Variables").
///
/// `Typing` is its first fault: operands come first, from left to right, and then the expression
/// itself. After a fault the scope is given up. `Memory` comes where memory was wanting.
#[cycle(expressions)]
pub fn expr(alloc: Global, table: &Table, scope: &mut Scope, e: &Expr) -> Result<Typed, TypeFault>
    requires room { length scope.old.locals + expr_size (view_expr e.now) < 2 ^ 32 }
    ensures typed { IfOk result
        (λ t. definition.typing table.now scope.old (view_expr e.now)
        ≡ gives (valued t scope.new)) }
    ensures refused { IfErr result
        (λ why. IsFault why → definition.typing table.now scope.old (view_expr e.now) ≡ fault why) }
    ensures grown { length scope.new.locals ≤ length scope.old.locals
        + expr_size (view_expr e.now) }
{
    let meaning = meaning(alloc, table, scope, e)?;
    as_value(alloc, scope, e.line, meaning)
}

/// The values of expressions, one after another, or the first fault among them.
#[cycle(expressions)]
pub fn exprs(
    alloc: Global,
    table: &Table,
    scope: &mut Scope,
    all: &[Expr],
) -> Result<Vec<Typed>, TypeFault>
    requires room { length scope.old.locals + exprs_size (exprs_of no_exprs all.now) < 2 ^ 32 }
    ensures typed { IfOk result
        (λ all_typed. definition.values table.now scope.old (exprs_of no_exprs all.now)
        ≡ gives (all_valued all_typed.items scope.new)) }
    ensures refused { IfErr result
        (λ why. IsFault why →
        definition.values table.now scope.old (exprs_of no_exprs all.now) ≡ fault why) }
    ensures grown { length scope.new.locals ≤ length scope.old.locals
        + exprs_size (exprs_of no_exprs all.now) }
{
    let mut values = Vec::new(alloc);
    for e in all {
        let value = expr(alloc, table, scope, e)?;
        push(&mut values, value)?;
    }
    Ok(values)
}

/// The sizes in brackets.
#[cycle(expressions)]
fn sizes(
    alloc: Global,
    table: &Table,
    scope: &mut Scope,
    all: &[Bracket],
) -> Result<Vec<Typed>, TypeFault>
    requires room { length scope.old.locals
        + brackets_size (brackets_of no_brackets all.now) < 2 ^ 32 }
    ensures typed { IfOk result
        (λ all_typed. definition.sizes table.now scope.old (brackets_of no_brackets all.now)
        ≡ gives (all_valued all_typed.items scope.new)) }
    ensures refused { IfErr result
        (λ why. IsFault why →
        definition.sizes table.now scope.old (brackets_of no_brackets all.now) ≡ fault why) }
    ensures grown { length scope.new.locals ≤ length scope.old.locals
        + brackets_size (brackets_of no_brackets all.now) }
{
    let mut sizes = Vec::new(alloc);
    for bracket in all {
        let Bracket::Size(e) = bracket else {
            continue;
        };
        let size = expr(alloc, table, scope, e)?;
        push(&mut sizes, size)?;
    }
    Ok(sizes)
}

/// `(inner)`: the value, where the parenthesis stands.
#[cycle(expressions)]
fn paren(
    alloc: Global,
    table: &Table,
    scope: &mut Scope,
    line: u32,
    inner: &Expr,
) -> Result<Denoted, TypeFault>
    requires room { length scope.old.locals + expr_size (view_expr inner.now) < 2 ^ 32 }
    ensures meant { Answers (λ m. meant m scope.new) result
        (definition.meaning table.now scope.old (tree.paren line (view_expr inner.now))) }
    ensures grown { length scope.new.locals ≤ length scope.old.locals
        + expr_size (view_expr inner.now) }
{
    let place = scope.place(line);
    let mut inner = expr(alloc, table, scope, inner)?;
    inner.place = place;
    Ok(Denoted::Value(inner))
}

/// `[a, b]`
#[cycle(expressions)]
fn array(
    alloc: Global,
    table: &Table,
    scope: &mut Scope,
    line: u32,
    items: &[Expr],
) -> Result<Denoted, TypeFault>
    requires room { length scope.old.locals + exprs_size (exprs_of no_exprs items.now) < 2 ^ 32 }
    ensures meant { Answers (λ m. meant m scope.new) result
        (definition.meaning table.now scope.old (tree.array line (exprs_of no_exprs items.now))) }
    ensures grown { length scope.new.locals ≤ length scope.old.locals
        + exprs_size (exprs_of no_exprs items.now) }
{
    let items = exprs(alloc, table, scope, items)?;
    let array = array_meaning(alloc, table.parents(), scope, line, items)?;
    Ok(Denoted::Value(array))
}

/// `callee(arguments)`, whose callee stands for `first`.
#[cycle(expressions)]
fn call(
    alloc: Global,
    table: &Table,
    scope: &mut Scope,
    line: u32,
    first: Denoted,
    arguments: &[Expr],
) -> Result<Denoted, TypeFault>
    requires room { length scope.old.locals + exprs_size (exprs_of no_exprs arguments.now) < 2 ^ 32 }
    ensures meant { (before : _) (callee : _) → definition.meaning table.now before callee
        ≡ gives (meant first scope.old) → Answers (λ m. meant m scope.new) result
        (definition.meaning table.now before
        (tree.call line callee (exprs_of no_exprs arguments.now))) }
    ensures grown { length scope.new.locals ≤ length scope.old.locals
        + exprs_size (exprs_of no_exprs arguments.now) }
{
    let callee = boxed(alloc, first)?;
    let arguments = List::from_vec(exprs(alloc, table, scope, arguments)?);
    let callee = Box::into_inner(callee);
    let call = call_meaning(alloc, table, scope, line, callee, arguments)?;
    Ok(Denoted::Value(call))
}

/// `array[index]`, whose array stands for `first`.
#[cycle(expressions)]
fn item(
    alloc: Global,
    table: &Table,
    scope: &mut Scope,
    line: u32,
    array: &Expr,
    first: Denoted,
    index: &Expr,
) -> Result<Denoted, TypeFault>
    requires room { length scope.old.locals + expr_size (view_expr index.now) < 2 ^ 32 }
    ensures meant { (before : _) → definition.meaning table.now before (view_expr array.now)
        ≡ gives (meant first scope.old) → Answers (λ m. meant m scope.new) result
        (definition.meaning table.now before
        (tree.index line (view_expr array.now) (view_expr index.now))) }
    ensures grown { length scope.new.locals ≤ length scope.old.locals
        + expr_size (view_expr index.now) }
{
    let array = as_value(alloc, scope, array.line, first)?;
    let index = expr(alloc, table, scope, index)?;
    item_meaning(alloc, scope, line, array, index)
}

/// `object.name`, whose object stands for `first`.
fn member(
    alloc: Global,
    table: &Table,
    scope: &Scope,
    line: u32,
    object: &Expr,
    first: Denoted,
    name: &Text,
) -> Result<Denoted, TypeFault>
    ensures meant { (before : _) → definition.meaning table.now before (view_expr object.now)
        ≡ gives (meant first scope.now) → Answers (λ m. meant m scope.now) result
        (definition.meaning table.now before
        (tree.member line (view_expr object.now) name.now)) }
{
    let word = wait_word(object, name);
    member_or_wait(alloc, table, scope, line, object.line, first, name, word)
}

/// `count :: unit`, whose count stands for `first`.
#[cycle(expressions)]
fn dur(
    alloc: Global,
    table: &Table,
    scope: &mut Scope,
    line: u32,
    count: &Expr,
    first: Denoted,
    unit: &Expr,
) -> Result<Denoted, TypeFault>
    requires room { length scope.old.locals + expr_size (view_expr unit.now) < 2 ^ 32 }
    ensures meant { (before : _) → definition.meaning table.now before (view_expr count.now)
        ≡ gives (meant first scope.old) → Answers (λ m. meant m scope.new) result
        (definition.meaning table.now before
        (tree.dur line (view_expr count.now) (view_expr unit.now))) }
    ensures grown { length scope.new.locals ≤ length scope.old.locals
        + expr_size (view_expr unit.now) }
{
    let name = unit_in(unit);
    let count = as_value(alloc, scope, count.line, first)?;
    let unit = expr(alloc, table, scope, unit)?;
    let dur = dur_meaning(alloc, scope, line, count, unit, name)?;
    Ok(Denoted::Value(dur))
}

/// `new base[size]`
#[cycle(expressions)]
fn new(
    alloc: Global,
    table: &Table,
    scope: &mut Scope,
    line: u32,
    base: &Base,
    sizes: &[Expr],
) -> Result<Denoted, TypeFault>
    requires room { length scope.old.locals + exprs_size (exprs_of no_exprs sizes.now) < 2 ^ 32 }
    ensures meant { Answers (λ m. meant m scope.new) result
        (definition.meaning table.now scope.old
        (tree.new line base.now (exprs_of no_exprs sizes.now))) }
    ensures grown { length scope.new.locals ≤ length scope.old.locals
        + exprs_size (exprs_of no_exprs sizes.now) }
{
    let sizes = exprs(alloc, table, scope, sizes)?;
    let named = table.named(scope.file(), base);
    let new = new_meaning(alloc, table, scope, line, named, sizes)?;
    Ok(Denoted::Value(new))
}

/// `new base(arguments)`
#[cycle(expressions)]
fn new_with(
    alloc: Global,
    table: &Table,
    scope: &mut Scope,
    line: u32,
    base: &Base,
    arguments: &[Expr],
) -> Result<Denoted, TypeFault>
    requires room { length scope.old.locals + exprs_size (exprs_of no_exprs arguments.now) < 2 ^ 32 }
    ensures meant { Answers (λ m. meant m scope.new) result
        (definition.meaning table.now scope.old
        (tree.new_with line base.now (exprs_of no_exprs arguments.now))) }
    ensures grown { length scope.new.locals ≤ length scope.old.locals
        + exprs_size (exprs_of no_exprs arguments.now) }
{
    let arguments = List::from_vec(exprs(alloc, table, scope, arguments)?);
    let named = table.named(scope.file(), base);
    let new = new_with_meaning(alloc, table, scope, line, named, arguments)?;
    Ok(Denoted::Value(new))
}

/// `spork ~ callee(arguments)`
#[cycle(expressions)]
fn sporked_call(
    alloc: Global,
    table: &Table,
    scope: &mut Scope,
    line: u32,
    call_line: u32,
    arguments: &[Expr],
    callee: &Expr,
) -> Result<Denoted, TypeFault>
    requires room { length scope.old.locals + expr_size (view_expr callee.now)
        + exprs_size (exprs_of no_exprs arguments.now) < 2 ^ 32 }
    ensures meant { Answers (λ m. meant m scope.new) result
        (definition.meaning table.now scope.old
        (tree.spork line
        (tree.call call_line (view_expr callee.now) (exprs_of no_exprs arguments.now)))) }
    ensures grown { length scope.new.locals ≤ length scope.old.locals
        + expr_size (view_expr callee.now) + exprs_size (exprs_of no_exprs arguments.now) }
{
    let callee = boxed(alloc, meaning(alloc, table, scope, callee)?)?;
    let arguments = List::from_vec(exprs(alloc, table, scope, arguments)?);
    let callee = Box::into_inner(callee);
    let spork = spork_meaning(alloc, table, scope, line, call_line, callee, arguments)?;
    Ok(Denoted::Value(spork))
}

/// `spork ~ call`, which takes a call alone.
#[cycle(expressions)]
fn spork(
    alloc: Global,
    table: &Table,
    scope: &mut Scope,
    line: u32,
    call: &Expr,
) -> Result<Denoted, TypeFault>
    requires room { length scope.old.locals + expr_size (view_expr call.now) < 2 ^ 32 }
    ensures meant { Answers (λ m. meant m scope.new) result
        (definition.meaning table.now scope.old (tree.spork line (view_expr call.now))) }
    ensures grown { length scope.new.locals ≤ length scope.old.locals
        + expr_size (view_expr call.now) }
{
    match &call.kind {
        ExprKind::Call { callee, arguments } => sporked_call(
            alloc,
            table,
            scope,
            line,
            call.line,
            arguments.items(),
            callee,
        ),
        ExprKind::Int(_)
        | ExprKind::Float(_)
        | ExprKind::Text(_)
        | ExprKind::Name(_)
        | ExprKind::Constant(_)
        | ExprKind::Unit(_)
        | ExprKind::Paren(_)
        | ExprKind::Array(_)
        | ExprKind::Index { .. }
        | ExprKind::Member { .. }
        | ExprKind::Postfix { .. }
        | ExprKind::Dur { .. }
        | ExprKind::Prefix { .. }
        | ExprKind::New { .. }
        | ExprKind::NewWith { .. }
        | ExprKind::Spork(_)
        | ExprKind::Cast { .. }
        | ExprKind::Binary { .. }
        | ExprKind::Cond { .. }
        | ExprKind::Declare { .. }
        | ExprKind::Chuck { .. } => {
            let not_callable = scope.wrong(line, FaultKind::NotCallable);
            expr(alloc, table, scope, call)?;
            Err(not_callable)
        }
    }
}

/// `value $ target`, whose value stands for `first`.
fn cast(
    alloc: Global,
    table: &Table,
    scope: &Scope,
    line: u32,
    value: &Expr,
    first: Denoted,
    target: &TypeName,
) -> Result<Denoted, TypeFault>
    ensures meant { (before : _) → definition.meaning table.now before (view_expr value.now)
        ≡ gives (meant first scope.now) → Answers (λ m. meant m scope.now) result
        (definition.meaning table.now before
        (tree.cast line (view_expr value.now) target.now)) }
{
    let value = as_value(alloc, scope, value.line, first)?;
    let named = table.named(scope.file(), &target.base);
    let cast = cast_meaning(
        alloc,
        table.parents(),
        scope,
        line,
        value,
        named,
        target.brackets,
    )?;
    Ok(Denoted::Value(cast))
}

/// `left operator right`, whose left operand stands for `first`.
#[cycle(expressions)]
fn binary(
    alloc: Global,
    table: &Table,
    scope: &mut Scope,
    line: u32,
    left: &Expr,
    first: Denoted,
    operator: BinaryOp,
    right: &Expr,
) -> Result<Denoted, TypeFault>
    requires room { length scope.old.locals + expr_size (view_expr right.now) < 2 ^ 32 }
    ensures meant { (before : _) → definition.meaning table.now before (view_expr left.now)
        ≡ gives (meant first scope.old) → Answers (λ m. meant m scope.new) result
        (definition.meaning table.now before
        (tree.binary line (view_expr left.now) operator (view_expr right.now))) }
    ensures grown { length scope.new.locals ≤ length scope.old.locals
        + expr_size (view_expr right.now) }
{
    let left = as_value(alloc, scope, left.line, first)?;
    let right = expr(alloc, table, scope, right)?;
    let binary = binary_meaning(alloc, table.parents(), scope, line, operator, left, right)?;
    Ok(Denoted::Value(binary))
}

/// `test ? then : otherwise`, whose test stands for `first`.
#[cycle(expressions)]
fn choice(
    alloc: Global,
    table: &Table,
    scope: &mut Scope,
    line: u32,
    test: &Expr,
    first: Denoted,
    then: &Expr,
    otherwise: &Expr,
) -> Result<Denoted, TypeFault>
    requires room { length scope.old.locals + expr_size (view_expr then.now)
        + expr_size (view_expr otherwise.now) < 2 ^ 32 }
    ensures meant { (before : _) → definition.meaning table.now before (view_expr test.now)
        ≡ gives (meant first scope.old) → Answers (λ m. meant m scope.new) result
        (definition.meaning table.now before
        (tree.choice line (view_expr test.now) (view_expr then.now) (view_expr otherwise.now))) }
    ensures grown { length scope.new.locals ≤ length scope.old.locals
        + expr_size (view_expr then.now) + expr_size (view_expr otherwise.now) }
{
    let test = as_value(alloc, scope, test.line, first)?;
    let then = expr(alloc, table, scope, then)?;
    let otherwise = expr(alloc, table, scope, otherwise)?;
    let choice = choice_meaning(alloc, table.parents(), scope, line, test, then, otherwise)?;
    Ok(Denoted::Value(choice))
}

/// What a declaration makes its first value of.
#[cycle(expressions)]
fn making(
    alloc: Global,
    table: &Table,
    scope: &mut Scope,
    declarator: &Declarator,
) -> Result<Making, TypeFault>
    requires room { length scope.old.locals + declr_size (view_declr declarator.now) < 2 ^ 32 }
    ensures made { IfOk result
        (λ making. (line : ℕ) (head : RawHead) →
        definition.meaning table.now scope.old (tree.declare line head (view_declr declarator.now))
        ≡ definition.declaration_meaning table.now scope.new line head
        (view_declr declarator.now) (view_making making)) }
    ensures refused { IfErr result
        (λ why. IsFault why → (line : ℕ) (head : RawHead) →
        definition.meaning table.now scope.old (tree.declare line head (view_declr declarator.now))
        ≡ fault why) }
    ensures grown { length scope.new.locals + 1 ≤ length scope.old.locals
        + declr_size (view_declr declarator.now) }
{
    match &declarator.tail {
        DeclaratorTail::Brackets(brackets) => {
            let sizes = sizes(alloc, table, scope, brackets.items())?;
            Ok(Making::Sizes(List::from_vec(sizes)))
        }
        DeclaratorTail::Arguments(arguments) => {
            scope.enter_arguments(alloc, &declarator.name)?;
            let arguments = exprs(alloc, table, scope, arguments.items())?;
            scope.leave_arguments();
            Ok(Making::Arguments(List::from_vec(arguments)))
        }
    }
}

/// A declaration: what its first value is made of comes first, and its name is seen from then on.
#[cycle(expressions)]
fn declare(
    alloc: Global,
    table: &Table,
    scope: &mut Scope,
    line: u32,
    head: &DeclHead,
    declarator: &Declarator,
) -> Result<Denoted, TypeFault>
    requires room { length scope.old.locals + declr_size (view_declr declarator.now) < 2 ^ 32 }
    ensures meant { Answers (λ m. meant m scope.new) result
        (definition.meaning table.now scope.old
        (tree.declare line head.now (view_declr declarator.now))) }
    ensures grown { length scope.new.locals ≤ length scope.old.locals
        + declr_size (view_declr declarator.now) }
{
    let making = making(alloc, table, scope, declarator)?;
    declaration_meaning(alloc, table, scope, line, head, declarator, making)
}

/// `left => right` and its like, whose left operand stands for `first`.
#[cycle(expressions)]
fn chuck(
    alloc: Global,
    table: &Table,
    scope: &mut Scope,
    line: u32,
    left: &Expr,
    first: Denoted,
    operator: ChuckOp,
    right: &Expr,
) -> Result<Denoted, TypeFault>
    requires room { length scope.old.locals + expr_size (view_expr right.now) < 2 ^ 32 }
    ensures meant { (before : _) → definition.meaning table.now before (view_expr left.now)
        ≡ gives (meant first scope.old) → Answers (λ m. meant m scope.new) result
        (definition.meaning table.now before
        (tree.chuck line (view_expr left.now) operator (view_expr right.now))) }
    ensures grown { length scope.new.locals ≤ length scope.old.locals
        + expr_size (view_expr right.now) + 1 }
{
    let value = as_value(alloc, scope, left.line, first)?;
    let target = meaning(alloc, table, scope, right)?;
    let chuck = chucked(alloc, table, scope, line, operator, value, right, target)?;
    Ok(Denoted::Value(chuck))
}

/// The value of one declarator of a declaration.
pub fn declaration(
    alloc: Global,
    table: &Table,
    scope: &mut Scope,
    line: u32,
    head: &DeclHead,
    declarator: &Declarator,
) -> Result<Typed, TypeFault>
    requires room { length scope.old.locals + declr_size (view_declr declarator.now) < 2 ^ 32 }
    ensures typed { IfOk result
        (λ t. definition.typing table.now scope.old
        (tree.declare line head.now (view_declr declarator.now)) ≡ gives (valued t scope.new)) }
    ensures refused { IfErr result
        (λ why. IsFault why →
        definition.typing table.now scope.old
        (tree.declare line head.now (view_declr declarator.now)) ≡ fault why) }
    ensures grown { length scope.new.locals ≤ length scope.old.locals
        + declr_size (view_declr declarator.now) }
{
    let declared = declare(alloc, table, scope, line, head, declarator)?;
    as_value(alloc, scope, line, declared)
}
