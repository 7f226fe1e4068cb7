//! Blocks of statements, values that are dropped, and lists of declarations.
ghost use Rattle.std.specs.Prelude.{◌≡◌, ◌+◌, ◌^◌, ◌<◌, ◌≤◌, [], ◌∷◌, ◌++◌, length};
ghost use Rattle.std.specs.Prelude.{IfOk, IfErr, OnOk, map};
ghost use Rattle.ck_syntax.specs.Size.{expr_size, declrs_size};
ghost use Rattle.ck_syntax.specs.Tree.{no_declrs};
ghost use Rattle.ck_syntax.specs.View.{view_expr, declrs_of};
ghost use Rattle.ck_typed.specs.View.{view_stmt};
ghost use Rattle.check_decls.specs.StatementTyping as typing;
ghost use Rattle.check_decls.specs.Outcomes.{IsStated, AreStated, IsRefused};
ghost use Rattle.program_laws.specs.Statements as definition;
ghost use Rattle.check_decls.specs.View.{stated_as};
ghost use Rattle.check_scope.specs.View.{valued};
ghost use Rattle.fixed_point.specs.Wanting.{out_of_memory};
ghost use Rattle.type_table.specs.declared.fault.TypeFault.TheVariants.{Memory as memory};

use check_exprs::{Scope, Typed, declaration, expr};
use check_scope::{boxed, push};
use ck_base::List;
use ck_syntax::{DeclHead, Declarator, Expr};
use ck_typed::TypedStmt;
use std::alloc::Global;
use type_table::{Table, TypeFault};

/// Statements in order. It takes no memory.
#[tactic(auto, using(crate::proofs::Rows::rows))]
pub(crate) fn block_of(statements: List<TypedStmt>) -> TypedStmt
    ensures { view_stmt result ≡ definition.block_of (map view_stmt statements) }
{
    TypedStmt::Block { statements }
}

/// No code.
pub(crate) fn nothing(alloc: Global) -> Result<Box<TypedStmt>, TypeFault>
    ensures made { IfOk result (λ x. view_stmt x.value ≡ definition.nothing) }
    ensures memory { IfErr result (λ why. why ≡ memory out_of_memory) }
{
    boxed(alloc, block_of(List::from_vec(Vec::new(alloc))))
}

/// One statement more.
pub(crate) fn push_statement(
    statements: &mut Vec<TypedStmt>,
    statement: Box<TypedStmt>,
) -> Result<(), TypeFault>
    ensures items { OnOk result (statements.new.items
        ≡ statements.old.items ++ statement.value ∷ []) }
    ensures memory { IfErr result (λ why. why ≡ memory out_of_memory) }
{
    push(statements, Box::into_inner(statement))
}

/// A value that is dropped. It takes no memory.
pub(crate) fn simple(scope: &Scope, line: u32, value: Typed) -> TypedStmt
    ensures { stated_as result scope.now ≡ definition.simple line (valued value scope.now) }
{
    TypedStmt::Expr {
        value: Box::into_inner(value.expr),
        place: scope.place(line),
    }
}

/// An expression whose value is dropped.
pub(crate) fn dropped(
    alloc: Global,
    table: &Table,
    scope: &mut Scope,
    line: u32,
    e: &Expr,
) -> Result<Box<TypedStmt>, TypeFault>
    requires room { length scope.old.locals + expr_size (view_expr e.now) < 2 ^ 32 }
    ensures stated { IsStated result scope.new (typing.dropped table.now scope.old line e.now) }
    ensures refused { IsRefused result (typing.dropped table.now scope.old line e.now) }
    ensures grown { length scope.new.locals ≤ length scope.old.locals
        + expr_size (view_expr e.now) }
{
    let value = expr(alloc, table, scope, e)?;
    boxed(alloc, simple(scope, line, value))
}

/// Several declarations with one head, each of them a statement.
pub(crate) fn declarations(
    alloc: Global,
    table: &Table,
    scope: &mut Scope,
    line: u32,
    head: &DeclHead,
    declarators: &[Declarator],
) -> Result<List<TypedStmt>, TypeFault>
    requires room { length scope.old.locals
        + declrs_size (declrs_of no_declrs declarators.now) < 2 ^ 32 }
    ensures stated { AreStated result scope.new
        (typing.declarations table.now scope.old line head.now declarators.now) }
    ensures refused { IsRefused result
        (typing.declarations table.now scope.old line head.now declarators.now) }
    ensures grown { length scope.new.locals ≤ length scope.old.locals
        + declrs_size (declrs_of no_declrs declarators.now) }
{
    let mut statements = Vec::new(alloc);
    for declarator in declarators {
        let value = declaration(alloc, table, scope, line, head, declarator)?;
        push(&mut statements, simple(scope, line, value))?;
    }
    Ok(List::from_vec(statements))
}

/// `head a, b;`: their names are seen behind it.
pub(crate) fn declared(
    alloc: Global,
    table: &Table,
    scope: &mut Scope,
    line: u32,
    head: &DeclHead,
    declarators: &[Declarator],
) -> Result<Box<TypedStmt>, TypeFault>
    requires room { length scope.old.locals
        + declrs_size (declrs_of no_declrs declarators.now) < 2 ^ 32 }
    ensures stated { IsStated result scope.new
        (typing.declared table.now scope.old line head.now declarators.now) }
    ensures refused { IsRefused result
        (typing.declared table.now scope.old line head.now declarators.now) }
    ensures grown { length scope.new.locals ≤ length scope.old.locals
        + declrs_size (declrs_of no_declrs declarators.now) }
{
    let all = declarations(alloc, table, scope, line, head, declarators)?;
    boxed(alloc, block_of(all))
}
