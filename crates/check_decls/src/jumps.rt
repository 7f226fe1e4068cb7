//! `break`, `continue` and `return`.
ghost use Rattle.std.specs.Prelude.{◌+◌, ◌^◌, ◌<◌, ◌≤◌, length};
ghost use Rattle.ck_syntax.specs.Size.{option_size};
ghost use Rattle.ck_syntax.specs.View.{view_option};
ghost use Rattle.ck_typed.specs.View.{view_stmt as typed_stmt};
ghost use Rattle.check_decls.specs.StatementTyping as typing;
ghost use Rattle.check_decls.specs.Outcomes.{IsStated, IsRefused};
ghost use Rattle.program_laws.specs.Statements as definition;
ghost use Rattle.check_scope.specs.View.{valued};

use check_exprs::{Scope, Typed, expr, fits, taken_as};
use check_scope::boxed;
use ck_syntax::Expr;
use ck_typed::{Leaf, TypedExpr, TypedStmt};
use ck_values::Kind;
use program_laws::Surroundings;
use std::alloc::Global;
use type_table::{FaultKind, Table, TypeFault};

/// `break;` or `continue;`, which stand in a loop.
pub(crate) fn jump(
    alloc: Global,
    around: Surroundings,
    scope: &Scope,
    line: u32,
    jump: TypedStmt,
) -> Result<Box<TypedStmt>, TypeFault>
    ensures stated { IsStated result scope.now
        (definition.in_loop_only around scope.now line (λ _. typed_stmt jump)) }
    ensures refused { IsRefused result
        (definition.in_loop_only around scope.now line (λ _. typed_stmt jump)) }
{
    if around.in_loop {
        boxed(alloc, jump)
    } else {
        Err(scope.wrong(line, FaultKind::BadPlace))
    }
}

/// Returns a value, which fits what its function gives.
fn returned(
    alloc: Global,
    parents: &[u32],
    scope: &Scope,
    line: u32,
    given: Option<Kind>,
    value: Typed,
) -> Result<Box<TypedStmt>, TypeFault>
    ensures stated { IsStated result scope.now
        (definition.returned parents.now line given (valued value scope.now)) }
    ensures refused { IsRefused result
        (definition.returned parents.now line given (valued value scope.now)) }
{
    let Some(kind) = given else {
        return Err(scope.wrong(line, FaultKind::BadPlace));
    };
    if !fits(parents, &value, kind) {
        return Err(scope.wrong(line, FaultKind::Mismatch));
    }
    let value = taken_as(alloc, value, kind)?;
    let made = TypedStmt::Return {
        value: Box::into_inner(value),
        place: scope.place(line),
    };
    boxed(alloc, made)
}

/// `return;` in a function without result, which gives the int 0.
fn bare_return(
    alloc: Global,
    scope: &Scope,
    line: u32,
    given: Option<Kind>,
) -> Result<Box<TypedStmt>, TypeFault>
    ensures stated { IsStated result scope.now (definition.bare_return scope.now line given) }
    ensures refused { IsRefused result (definition.bare_return scope.now line given) }
{
    match given {
        Some(Kind::Void) => {
            let place = scope.place(line);
            let value = TypedExpr::Leaf(Leaf::Int(0), place);
            boxed(alloc, TypedStmt::Return { value, place })
        }
        Some(_) => Err(scope.wrong(line, FaultKind::Mismatch)),
        None => Err(scope.wrong(line, FaultKind::BadPlace)),
    }
}

/// `return;` or `return value;`
pub(crate) fn return_meaning(
    alloc: Global,
    table: &Table,
    around: Surroundings,
    scope: &mut Scope,
    line: u32,
    value: &Option<Box<Expr>>,
) -> Result<Box<TypedStmt>, TypeFault>
    requires room { length scope.old.locals + option_size (view_option value.now) < 2 ^ 32 }
    ensures stated { IsStated result scope.new
        (typing.return table.now around scope.old line value.now) }
    ensures refused { IsRefused result (typing.return table.now around scope.old line value.now) }
    ensures grown { length scope.new.locals ≤ length scope.old.locals
        + option_size (view_option value.now) }
{
    match value {
        Some(e) => {
            let value = expr(alloc, table, scope, e)?;
            returned(alloc, table.parents(), scope, line, around.result, value)
        }
        None => bare_return(alloc, scope, line, around.result),
    }
}
