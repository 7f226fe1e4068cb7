//! Conditions, and the head of a `for`.
ghost use Rattle.std.specs.Prelude.{◌≡◌, ◌+◌, ◌^◌, ◌<◌, ◌≤◌, length, IfOk, IfErr};
ghost use Rattle.ck_syntax.specs.Size.{expr_size, option_size, stmt_size};
ghost use Rattle.ck_syntax.specs.View.{view_expr, view_option, view_stmt};
ghost use Rattle.ck_typed.specs.Tree as typed;
ghost use Rattle.ck_typed.specs.View.{view_expr as typed_expr, view_stmt as typed_stmt};
ghost use Rattle.program_laws.specs.Statements as definition;
ghost use Rattle.check_decls.specs.StatementTyping as typing;
ghost use Rattle.check_decls.specs.Outcomes.{IsStated, IsTyped, IsTested, IsRefused};
ghost use Rattle.check_scope.specs.View.{valued};
ghost use Rattle.fixed_point.specs.Wanting.{out_of_memory};
ghost use Rattle.type_table.specs.declared.fault.TypeFault.TheVariants.{Memory as memory};

use crate::simple::{declarations, dropped, nothing};
use check_exprs::{Scope, Typed, expr, is_int};
use check_scope::boxed;
use ck_syntax::{Expr, Stmt, StmtKind};
use ck_typed::{TypedExpr, TypedStmt};
use ck_values::Place;
use std::alloc::Global;
use type_table::{FaultKind, Table, TypeFault};

/// A value that is an int.
fn int_at(scope: &Scope, line: u32, value: Typed) -> Result<Typed, TypeFault>
    ensures typed { IsTyped result scope.now (definition.int_at line (valued value scope.now)) }
    ensures refused { IsRefused result (definition.int_at line (valued value scope.now)) }
{
    if is_int(value.kind) {
        Ok(value)
    } else {
        Err(scope.wrong(line, FaultKind::Mismatch))
    }
}

/// A condition of the statement at this line, or the number of a `repeat`.
pub(crate) fn condition(
    alloc: Global,
    table: &Table,
    scope: &mut Scope,
    line: u32,
    e: &Expr,
) -> Result<Typed, TypeFault>
    requires room { length scope.old.locals + expr_size (view_expr e.now) < 2 ^ 32 }
    ensures typed { IsTyped result scope.new (typing.condition table.now scope.old line e.now) }
    ensures refused { IsRefused result (typing.condition table.now scope.old line e.now) }
    ensures grown { length scope.new.locals ≤ length scope.old.locals
        + expr_size (view_expr e.now) }
{
    let value = expr(alloc, table, scope, e)?;
    int_at(scope, line, value)
}

/// The test of the `for` at this line, which may be missing. A list of declarations is none.
pub(crate) fn for_test(
    alloc: Global,
    table: &Table,
    scope: &mut Scope,
    line: u32,
    test: &Stmt,
) -> Result<Option<Box<TypedExpr>>, TypeFault>
    requires room { length scope.old.locals + stmt_size (view_stmt test.now) < 2 ^ 32 }
    ensures tested { IsTested result scope.new
        (typing.for_test table.now scope.old line test.now) }
    ensures refused { IsRefused result (typing.for_test table.now scope.old line test.now) }
    ensures grown { length scope.new.locals ≤ length scope.old.locals
        + stmt_size (view_stmt test.now) }
{
    match &test.kind {
        StmtKind::Empty => Ok(None),
        StmtKind::Expr(expr) => {
            let test = condition(alloc, table, scope, line, expr)?;
            Ok(Some(test.expr))
        }
        StmtKind::Declare { head, declarators } => {
            declarations(alloc, table, scope, test.line, head, declarators.items())?;
            Err(scope.wrong(line, FaultKind::Mismatch))
        }
        StmtKind::Block(_)
        | StmtKind::Print(_)
        | StmtKind::If { .. }
        | StmtKind::IfElse { .. }
        | StmtKind::While { .. }
        | StmtKind::Until { .. }
        | StmtKind::DoWhile { .. }
        | StmtKind::DoUntil { .. }
        | StmtKind::For { .. }
        | StmtKind::ForEach { .. }
        | StmtKind::Repeat { .. }
        | StmtKind::Break
        | StmtKind::Continue
        | StmtKind::Return(_) => Err(scope.wrong(line, FaultKind::Mismatch)),
    }
}

/// The step of a `for`, which may be missing.
#[tactic(auto, using(ck_syntax::proofs::Views::line_is))]
pub(crate) fn for_step(
    alloc: Global,
    table: &Table,
    scope: &mut Scope,
    step: &Option<Box<Expr>>,
) -> Result<Box<TypedStmt>, TypeFault>
    requires room { length scope.old.locals + option_size (view_option step.now) < 2 ^ 32 }
    ensures stated { IsStated result scope.new (typing.for_step table.now scope.old step.now) }
    ensures refused { IsRefused result (typing.for_step table.now scope.old step.now) }
    ensures grown { length scope.new.locals ≤ length scope.old.locals
        + option_size (view_option step.now) }
{
    match step {
        Some(e) => dropped(alloc, table, scope, e.line, e),
        None => nothing(alloc),
    }
}

/// A `for` with a test or without.
pub(crate) fn for_made(
    alloc: Global,
    test: Option<Box<TypedExpr>>,
    start: Box<TypedStmt>,
    step: Box<TypedStmt>,
    body: Box<TypedStmt>,
    place: Place,
) -> Result<Box<TypedStmt>, TypeFault>
    ensures made { IfOk result (λ x. typed_stmt x.value
        ≡ typing.for_made test start.value step.value body.value place) }
    ensures memory { IfErr result (λ why. why ≡ memory out_of_memory) }
{
    match test {
        Some(test) => {
            let made = TypedStmt::For {
                start,
                test: Box::into_inner(test),
                step,
                body,
                place,
            };
            boxed(alloc, made)
        }
        None => {
            let made = TypedStmt::ForEver {
                start,
                step,
                body,
                place,
            };
            boxed(alloc, made)
        }
    }
}

/// An `if` with both branches.
pub(crate) fn if_made(
    alloc: Global,
    test: Box<TypedExpr>,
    then: Box<TypedStmt>,
    otherwise: Box<TypedStmt>,
    place: Place,
) -> Result<Box<TypedStmt>, TypeFault>
    ensures made { IfOk result (λ x. typed_stmt x.value ≡ typed.If (typed_expr test.value)
        (typed_stmt then.value) (typed_stmt otherwise.value) place) }
    ensures memory { IfErr result (λ why. why ≡ memory out_of_memory) }
{
    let made = TypedStmt::If {
        test: Box::into_inner(test),
        then,
        otherwise,
        place,
    };
    boxed(alloc, made)
}

/// A loop of so many rounds.
pub(crate) fn repeat_made(
    alloc: Global,
    count: Box<TypedExpr>,
    body: Box<TypedStmt>,
    place: Place,
) -> Result<Box<TypedStmt>, TypeFault>
    ensures made { IfOk result (λ x. typed_stmt x.value
        ≡ typed.Repeat (typed_expr count.value) (typed_stmt body.value) place) }
    ensures memory { IfErr result (λ why. why ≡ memory out_of_memory) }
{
    let made = TypedStmt::Repeat {
        count: Box::into_inner(count),
        body,
        place,
    };
    boxed(alloc, made)
}

/// A loop whose test comes first: a `while`, or an `until`, which the test ends.
pub(crate) fn while_made(
    alloc: Global,
    until: bool,
    test: Box<TypedExpr>,
    body: Box<TypedStmt>,
    place: Place,
) -> Result<Box<TypedStmt>, TypeFault>
    ensures made { IfOk result (λ x. typed_stmt x.value
        ≡ typed.Loop until (typed_expr test.value) (typed_stmt body.value) place) }
    ensures memory { IfErr result (λ why. why ≡ memory out_of_memory) }
{
    let made = TypedStmt::Loop {
        until,
        test: Box::into_inner(test),
        body,
        place,
    };
    boxed(alloc, made)
}

/// A loop whose test comes last: a `do` with `while`, or with `until`, which the test ends.
pub(crate) fn do_made(
    alloc: Global,
    until: bool,
    body: Box<TypedStmt>,
    test: Box<TypedExpr>,
    place: Place,
) -> Result<Box<TypedStmt>, TypeFault>
    ensures made { IfOk result (λ x. typed_stmt x.value
        ≡ typed.LoopLast until (typed_stmt body.value) (typed_expr test.value) place) }
    ensures memory { IfErr result (λ why. why ≡ memory out_of_memory) }
{
    let made = TypedStmt::LoopLast {
        until,
        body,
        test: Box::into_inner(test),
        place,
    };
    boxed(alloc, made)
}
