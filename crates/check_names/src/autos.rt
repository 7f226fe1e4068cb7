//! What is assigned to a declaration with `auto`, which takes its type.
ghost use Rattle.std.specs.Prelude.{◌≡◌, ◌+◌, ◌^◌, ◌<◌, ◌≤◌, length};
ghost use Rattle.check_scope.specs.Expressions as definition;
ghost use Rattle.check_scope.specs.View.{view_typed, value_meant, Answers};

use check_scope::{Scope, Typed};
use ck_base::{List, Text};
use ck_syntax::ChuckOp;
use ck_typed::{Spot, TypedExpr};
use ck_values::Kind;
use std::alloc::Global;
use type_rules::are_references;
use type_table::{FaultKind, Table, TypeFault, Variable};

/// The value, assigned to what was declared here with its type.
#[tactic(auto, using(check_scope::proofs::Rows::rows))]
fn assigned_to(
    alloc: Global,
    scope: &Scope,
    line: u32,
    spot: Spot,
    value: Typed,
) -> Result<Typed, TypeFault>
    ensures { Answers (λ t. value_meant t scope.now) result
        (definition.assigned_to spot (view_typed value) line scope.now) }
{
    let place = scope.place(line);
    let kind = value.kind;
    let assign = TypedExpr::Assign {
        value: value.expr,
        spot,
        address: List::from_vec(Vec::new(alloc)),
        place,
    };
    Typed::new(alloc, assign, kind, place)
}

/// A file variable.
fn auto_variable(
    alloc: Global,
    scope: &mut Scope,
    line: u32,
    auto_line: u32,
    value: Typed,
    variable: Option<Variable>,
) -> Result<Typed, TypeFault>
    ensures assigned { Answers (λ t. value_meant t scope.new) result
        (definition.auto_variable scope.old line auto_line (view_typed value) variable) }
    ensures grown { length scope.new.locals ≤ length scope.old.locals + 1 }
{
    let Some(variable) = variable else {
        return Err(scope.wrong(auto_line, FaultKind::UnknownName));
    };
    if !matches!(scope.kind_now(variable), Kind::Void) {
        return Err(scope.wrong(auto_line, FaultKind::Duplicate));
    }
    scope.settle(variable.index, value.kind)?;
    assigned_to(alloc, scope, line, Spot::Static(variable.index), value)
}

/// A file variable or a local of the type of the value.
fn auto_declared(
    alloc: Global,
    table: &Table,
    scope: &mut Scope,
    line: u32,
    auto_line: u32,
    value: Typed,
    name: &Text,
) -> Result<Typed, TypeFault>
    requires few { length scope.old.locals < 2 ^ 32 }
    ensures assigned { Answers (λ t. value_meant t scope.new) result
        (definition.auto_declared table.now scope.old line auto_line (view_typed value)
        name.now) }
    ensures grown { length scope.new.locals ≤ length scope.old.locals + 1 }
{
    if scope.declares_globals() {
        if scope.class().is_some() {
            return Err(scope.wrong(auto_line, FaultKind::BadPlace));
        }
        let variable = table.variable(scope.file(), name);
        return auto_variable(alloc, scope, line, auto_line, value, variable);
    }
    let local = scope.declare(alloc, name, value.kind, auto_line)?;
    assigned_to(alloc, scope, line, Spot::Local(local), value)
}

/// Whether this is the type of no variable: void, or that of the literal `null`.
fn is_no_type(kind: Kind) -> bool
    ensures { result ≡ definition.is_no_type kind }
{
    matches!(kind, Kind::Void | Kind::Null)
}

/// `value => auto name` or `value @=> auto name`
fn auto_assigned(
    alloc: Global,
    table: &Table,
    scope: &mut Scope,
    line: u32,
    auto_line: u32,
    takes_references: bool,
    value: Typed,
    name: &Text,
    has_form: bool,
) -> Result<Typed, TypeFault>
    requires few { length scope.old.locals < 2 ^ 32 }
    ensures assigned { Answers (λ t. value_meant t scope.new) result
        (definition.auto_assigned table.now scope.old line auto_line takes_references
        (view_typed value) name.now has_form) }
    ensures grown { length scope.new.locals ≤ length scope.old.locals + 1 }
{
    if is_no_type(value.kind) {
        return Err(scope.wrong(auto_line, FaultKind::Mismatch));
    }
    if !has_form {
        return Err(scope.wrong(auto_line, FaultKind::BadPlace));
    }
    if !takes_references && are_references(value.kind) {
        return Err(scope.wrong(line, FaultKind::NotAssignable));
    }
    auto_declared(alloc, table, scope, line, auto_line, value, name)
}

/// What is chucked to a declaration with `auto`. Only `=>` and `@=>` give it a type.
pub fn auto_chucked(
    alloc: Global,
    table: &Table,
    scope: &mut Scope,
    line: u32,
    auto_line: u32,
    operator: ChuckOp,
    value: Typed,
    name: &Text,
    has_form: bool,
) -> Result<Typed, TypeFault>
    requires few { length scope.old.locals < 2 ^ 32 }
    ensures assigned { Answers (λ t. value_meant t scope.new) result
        (definition.auto_chucked table.now scope.old line auto_line operator (view_typed value)
        name.now has_form) }
    ensures grown { length scope.new.locals ≤ length scope.old.locals + 1 }
{
    let takes_references = match operator {
        ChuckOp::Chuck => false,
        ChuckOp::Assign => true,
        _ => return Err(scope.wrong(auto_line, FaultKind::BadPlace)),
    };
    auto_assigned(
        alloc,
        table,
        scope,
        line,
        auto_line,
        takes_references,
        value,
        name,
        has_form,
    )
}
