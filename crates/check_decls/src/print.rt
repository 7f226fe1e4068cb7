//! What is printed.
ghost use Rattle.std.specs.Prelude.{◌≡◌, ◌+◌, ◌^◌, ◌<◌, ◌≤◌, length, IfOk, IfErr};
ghost use Rattle.ck_syntax.specs.Size.{exprs_size};
ghost use Rattle.ck_syntax.specs.Tree.{no_exprs};
ghost use Rattle.ck_syntax.specs.View.{exprs_of};
ghost use Rattle.std.specs.List.{list_any};
ghost use Rattle.ck_typed.specs.View.{exprs_of as typed_exprs};
ghost use Rattle.check_decls.specs.StatementTyping as typing;
ghost use Rattle.check_decls.specs.Outcomes.{IsStated, IsRefused};
ghost use Rattle.program_laws.specs.Statements as definition;
ghost use Rattle.check_scope.specs.Denotations.{is_void};
ghost use Rattle.check_scope.specs.View.{all_typed, all_valued};
ghost use Rattle.fixed_point.specs.Wanting.{out_of_memory};
ghost use Rattle.type_table.specs.declared.fault.TypeFault.TheVariants.{Memory as memory};

use check_exprs::{Scope, Typed, exprs};
use check_scope::{boxed, push};
use ck_base::List;
use ck_syntax::Expr;
use ck_typed::{TypedExpr, TypedStmt};
use ck_values::Kind;
use std::alloc::Global;
use type_table::{FaultKind, Table, TypeFault};

/// Whether a type is that of no value.
fn is_void(kind: Kind) -> bool
    ensures { result ≡ is_void kind }
{
    matches!(kind, Kind::Void)
}

/// Whether one of these is no value.
fn has_void(values: &[Typed]) -> bool
    ensures { result ≡ list_any (λ x. is_void x.kind) (all_typed values.now) }
{
    for value in values {
        if is_void(value.kind) {
            return true;
        }
    }
    false
}

/// The types of values.
fn kinds(alloc: Global, values: &[Typed]) -> Result<List<Kind>, TypeFault>
    ensures made { IfOk result (λ ks. ks ≡ definition.kinds (all_typed values.now)) }
    ensures memory { IfErr result (λ why. why ≡ memory out_of_memory) }
{
    let mut kinds = Vec::new(alloc);
    for value in values {
        kinds.push(value.kind)?;
    }
    Ok(List::from_vec(kinds))
}

/// The expressions of values.
fn items(alloc: Global, values: Vec<Typed>) -> Result<List<TypedExpr>, TypeFault>
    ensures made { IfOk result (λ es. typed_exprs es ≡ definition.exprs (all_typed values.items)) }
    ensures memory { IfErr result (λ why. why ≡ memory out_of_memory) }
{
    let mut items = Vec::new(alloc);
    for value in values {
        push(&mut items, Box::into_inner(value.expr))?;
    }
    Ok(List::from_vec(items))
}

/// Prints values, each with its type; there is one, and none of them is void.
fn printed(
    alloc: Global,
    scope: &Scope,
    line: u32,
    values: Vec<Typed>,
) -> Result<Box<TypedStmt>, TypeFault>
    ensures stated { IsStated result scope.now
        (definition.printed line (all_valued values.items scope.now)) }
    ensures refused { IsRefused result
        (definition.printed line (all_valued values.items scope.now)) }
{
    if values.is_empty() || has_void(values.as_slice()) {
        return Err(scope.wrong(line, FaultKind::Mismatch));
    }
    let kinds = kinds(alloc, values.as_slice())?;
    let items = items(alloc, values)?;
    let made = TypedStmt::Print {
        items,
        kinds,
        place: scope.place(line),
    };
    boxed(alloc, made)
}

/// `<<< a, b >>>;`
pub(crate) fn print(
    alloc: Global,
    table: &Table,
    scope: &mut Scope,
    line: u32,
    items: &[Expr],
) -> Result<Box<TypedStmt>, TypeFault>
    requires room { length scope.old.locals + exprs_size (exprs_of no_exprs items.now) < 2 ^ 32 }
    ensures stated { IsStated result scope.new (typing.print table.now scope.old line items.now) }
    ensures refused { IsRefused result (typing.print table.now scope.old line items.now) }
    ensures grown { length scope.new.locals ≤ length scope.old.locals
        + exprs_size (exprs_of no_exprs items.now) }
{
    let values = exprs(alloc, table, scope, items)?;
    printed(alloc, scope, line, values)
}
