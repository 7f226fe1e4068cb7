//! Declarations: where their values stand, and their first values.
ghost use Rattle.std.specs.Prelude.{◌≡◌, ◌+◌, ◌^◌, ◌<◌, ◌≤◌, [], length, IfOk, IfErr, if◌then◌else◌};
ghost use Rattle.std.specs.List.{list_all};
ghost use Rattle.ck_syntax.specs.Tree.{Name};
ghost use Rattle.ck_syntax.specs.View.{view_declr, view_tail};
ghost use Rattle.ck_typed.specs.Tree as form;
ghost use Rattle.ck_typed.specs.declared.operation.Variadic.TheVariants as variadic_op;
ghost use Rattle.ck_typed.specs.View.{view_expr, exprs_of};
ghost use Rattle.ck_typed.specs.declared.expr.Spot.TheVariants.{Local as local_spot};
ghost use Rattle.type_table.specs.Answer.{wrong};
ghost use Rattle.type_table.specs.Types.{written_kind};
ghost use Rattle.type_table.specs.declared.fault.FaultKind.TheVariants.{Duplicate as duplicate};
ghost use Rattle.fixed_point.specs.Wanting.{out_of_memory};
ghost use Rattle.type_table.specs.declared.fault.TypeFault.TheVariants.{Memory as memory};
ghost use Rattle.check_scope.specs.Expressions as definition;
ghost use Rattle.check_scope.specs.Expressions.{with_sizes};
ghost use Rattle.check_scope.specs.Denotations.{one};
ghost use Rattle.check_scope.specs.Scope.{is_declared, this_local};
ghost use Rattle.check_scope.specs.View.{all_typed, view_denoted, view_making, Answers};

use check_calls::{maker_of, object_made};
use check_scope::{Declaration, Denoted, Making, Scope, Target, Typed, boxed, is_int, push};
use ck_base::{List, Text};
use ck_syntax::{DeclHead, Declarator, DeclaratorTail};
use ck_typed::{Binary, Leaf, Spot, TypedExpr, Unary, Variadic};
use ck_values::{Elem, Kind, Place};
use fixed_point::Fix;
use std::alloc::Global;
use type_rules::is_reference;
use type_table::{
    FaultKind, Member, Named, Table, TypeFault, Variable, declared_kind, is_plain, made_kind,
};

/// The type of one value, or of an array's items.
fn elem_of(kind: Kind) -> Elem
    ensures { result ≡ definition.elem_of kind }
{
    match kind {
        Kind::One(elem) | Kind::Row(elem) | Kind::Grid(elem) => elem,
        Kind::Void | Kind::Null => Elem::Int,
    }
}

/// The string of no bytes.
fn no_bytes(alloc: Global) -> Result<Text, TypeFault>
    ensures made { IfOk result (λ text. text ≡ []) }
    ensures memory { IfErr result (λ why. why ≡ memory out_of_memory) }
{
    Ok(Text::from_bytes(alloc, b"")?)
}

/// The first value of a variable without brackets and `@`.
fn default_value(
    alloc: Global,
    table: &Table,
    scope: &Scope,
    line: u32,
    elem: Elem,
) -> Result<Box<TypedExpr>, TypeFault>
    ensures { Answers (λ e. view_expr e.value) result
        (definition.default_value table.now scope.now line elem) }
{
    let place = scope.place(line);
    let value = match elem {
        Elem::Int => TypedExpr::Leaf(Leaf::Int(0), place),
        Elem::Float => TypedExpr::Leaf(Leaf::Float(Fix::from_raw(0)), place),
        Elem::Dur => TypedExpr::Leaf(Leaf::Dur(0), place),
        Elem::Time => TypedExpr::Leaf(Leaf::Time(0), place),
        Elem::Text => {
            let value = no_bytes(alloc)?;
            TypedExpr::Text { value, place }
        }
        Elem::Shred => TypedExpr::Leaf(Leaf::NoShred, place),
        Elem::Class(_) | Elem::Unit(_) => {
            let arguments = List::from_vec(Vec::new(alloc));
            return object_made(alloc, table, scope, line, elem, arguments);
        }
    };
    boxed(alloc, value)
}

/// The first value with `@`.
fn null_of(alloc: Global, kind: Kind, place: Place) -> Result<Box<TypedExpr>, TypeFault>
    ensures made { IfOk result (λ e. view_expr e.value ≡ definition.null_of kind place) }
    ensures memory { IfErr result (λ why. why ≡ memory out_of_memory) }
{
    let null = match kind {
        Kind::One(Elem::Shred) => Leaf::NoShred,
        _ => Leaf::Null,
    };
    boxed(alloc, TypedExpr::Leaf(null, place))
}

/// The first value of a declaration without a size.
fn unsized_value(
    alloc: Global,
    table: &Table,
    scope: &Scope,
    line: u32,
    is_reference: bool,
    kind: Kind,
) -> Result<Box<TypedExpr>, TypeFault>
    ensures { Answers (λ e. view_expr e.value) result
        (definition.first_value table.now scope.now line is_reference kind (with_sizes [])) }
{
    match kind {
        Kind::One(elem) if !is_reference => default_value(alloc, table, scope, line, elem),
        _ => null_of(alloc, kind, scope.place(line)),
    }
}

/// The first value of an array with one size.
fn row_of(
    alloc: Global,
    table: &Table,
    scope: &Scope,
    line: u32,
    is_reference: bool,
    elem: Elem,
    size: Box<TypedExpr>,
) -> Result<Box<TypedExpr>, TypeFault>
    ensures { Answers (λ e. view_expr e.value) result
        (definition.row_of table.now scope.now line is_reference elem (view_expr size.value)) }
{
    let place = scope.place(line);
    let row = if is_reference || is_plain(elem) {
        TypedExpr::Unary {
            operation: Unary::NewRow(elem),
            operand: size,
            place,
        }
    } else {
        TypedExpr::NewObjects {
            elem,
            size,
            constructor: maker_of(table, scope, line, elem)?,
            place,
        }
    };
    boxed(alloc, row)
}

/// The first value of a declaration with these sizes.
#[tactic(auto, using(check_scope::proofs::Lengths::lengths))]
fn sized_value(
    alloc: Global,
    table: &Table,
    scope: &Scope,
    line: u32,
    is_reference: bool,
    kind: Kind,
    sizes: List<Typed>,
) -> Result<Box<TypedExpr>, TypeFault>
    ensures { Answers (λ e. view_expr e.value) result
        (definition.first_value table.now scope.now line is_reference kind
        (with_sizes (all_typed sizes))) }
{
    let elem = elem_of(kind);
    let mut sizes = sizes.into_vec().into_iter();
    let Some(rows) = sizes.next() else {
        return unsized_value(alloc, table, scope, line, is_reference, kind);
    };
    let Some(columns) = sizes.next() else {
        return row_of(alloc, table, scope, line, is_reference, elem, rows.expr);
    };
    let grid = TypedExpr::Binary {
        operation: Binary::NewGrid(elem),
        left: rows.expr,
        right: columns.expr,
        place: scope.place(line),
    };
    boxed(alloc, grid)
}

/// The first value of a declaration.
fn first_value(
    alloc: Global,
    table: &Table,
    scope: &Scope,
    line: u32,
    is_reference: bool,
    kind: Kind,
    making: Making,
) -> Result<Box<TypedExpr>, TypeFault>
    ensures { Answers (λ e. view_expr e.value) result
        (definition.first_value table.now scope.now line is_reference kind (view_making making)) }
{
    match making {
        Making::Sizes(sizes) => {
            sized_value(alloc, table, scope, line, is_reference, kind, sizes)
        }
        Making::Arguments(arguments) => {
            object_made(alloc, table, scope, line, elem_of(kind), arguments)
        }
    }
}

/// Whether a value of this type is one object.
fn is_object(kind: Kind) -> bool
    ensures { result ≡ definition.is_object kind }
{
    match kind {
        Kind::One(elem) => is_reference(elem),
        _ => false,
    }
}

/// Whether a declaration with these sizes makes an object or has one.
fn sizes_make(is_reference: bool, kind: Kind, sizes: &[Typed]) -> bool
    ensures { result ≡ definition.makes_object is_reference kind (with_sizes (all_typed sizes.now)) }
{
    match sizes {
        [] => !is_reference && is_object(kind),
        _ => true,
    }
}

/// Whether a declaration makes an object or has a size.
fn makes_object(is_reference: bool, kind: Kind, making: &Making) -> bool
    ensures { result ≡ definition.makes_object is_reference kind (view_making making.now) }
{
    match making {
        Making::Sizes(sizes) => sizes_make(is_reference, kind, sizes.items()),
        Making::Arguments(_) => true,
    }
}

/// Whether all of these are ints.
fn are_ints(values: &[Typed]) -> bool
    ensures { result ≡ list_all (λ value. definition.is_int value.kind) values.now }
{
    values.iter().all(|value| is_int(value.kind))
}

/// Whether all sizes are ints.
#[tactic(auto, using(crate::proofs::Sizes::all_ints))]
fn sizes_are_ints(making: &Making) -> bool
    ensures { result ≡ definition.sizes_are_ints (view_making making.now) }
{
    match making {
        Making::Sizes(sizes) => are_ints(sizes.items()),
        Making::Arguments(_) => true,
    }
}

/// Whether a local may be declared so: only members are static, and what is constructed has no `@`.
fn has_place(head: &DeclHead, making: &Making) -> bool
    ensures { result ≡ definition.has_place head.now (view_making making.now) }
{
    match making {
        Making::Sizes(_) => !head.is_static,
        Making::Arguments(_) => !head.is_static && !head.is_reference,
    }
}

/// The assignment that a declaration is by itself.
#[tactic(auto, using(check_scope::proofs::Rows::rows))]
fn first_assigned(
    alloc: Global,
    value: Box<TypedExpr>,
    spot: Spot,
    address: List<TypedExpr>,
    place: Place,
) -> Result<Box<TypedExpr>, TypeFault>
    ensures made { IfOk result
        (λ e. view_expr e.value
        ≡ form.Assign (view_expr value.value) spot (exprs_of address) place) }
    ensures memory { IfErr result (λ why. why ≡ memory out_of_memory) }
{
    let assign = TypedExpr::Assign {
        value,
        spot,
        address,
        place,
    };
    boxed(alloc, assign)
}

/// A declaration of what has no address: a local, or a file variable.
fn declared_here(
    alloc: Global,
    table: &Table,
    scope: &Scope,
    line: u32,
    spot: Spot,
    is_reference: bool,
    kind: Kind,
    making: Making,
) -> Result<Denoted, TypeFault>
    ensures { Answers view_denoted result
        (definition.declared_at table.now scope.now line spot form.no_exprs is_reference kind
        (view_making making)) }
{
    let makes = makes_object(is_reference, kind, &making);
    let place = scope.place(line);
    let value = first_value(alloc, table, scope, line, is_reference, kind, making)?;
    let nothing = List::from_vec(Vec::new(alloc));
    let alone = first_assigned(alloc, value, spot, nothing, place)?;
    let address = List::from_vec(Vec::new(alloc));
    let target = Target {
        spot,
        address,
        kind,
    };
    Ok(Denoted::Declared(Declaration {
        target,
        alone,
        makes,
    }))
}

/// The address of a field of `this`, which is this local.
#[tactic(auto, using(check_scope::proofs::Rows::rows))]
fn this_address(alloc: Global, this: u32, place: Place) -> Result<List<TypedExpr>, TypeFault>
    ensures made { IfOk result
        (λ es. exprs_of es
        ≡ one (form.Variadic (variadic_op.Read (local_spot this)) form.no_exprs place)) }
    ensures memory { IfErr result (λ why. why ≡ memory out_of_memory) }
{
    let read = TypedExpr::Variadic {
        operation: Variadic::Read(Spot::Local(this)),
        operands: List::from_vec(Vec::new(alloc)),
        place,
    };
    let mut address = Vec::new(alloc);
    push(&mut address, read)?;
    Ok(List::from_vec(address))
}

/// A declaration of a field of the class.
fn declared_field(
    alloc: Global,
    table: &Table,
    scope: &Scope,
    line: u32,
    field: u32,
    is_reference: bool,
    kind: Kind,
    making: Making,
) -> Result<Denoted, TypeFault>
    ensures { Answers view_denoted result
        (definition.declared_field table.now scope.now line field is_reference kind
        (view_making making) (this_local table.now scope.now)) }
{
    let Some(this) = scope.this_local(table) else {
        return Err(scope.wrong(line, FaultKind::BadPlace));
    };
    let place = scope.place(line);
    let spot = Spot::Field(field);
    let makes = makes_object(is_reference, kind, &making);
    let value = first_value(alloc, table, scope, line, is_reference, kind, making)?;
    let alone = first_assigned(alloc, value, spot, this_address(alloc, this, place)?, place)?;
    let address = this_address(alloc, this, place)?;
    let target = Target {
        spot,
        address,
        kind,
    };
    Ok(Denoted::Declared(Declaration {
        target,
        alone,
        makes,
    }))
}

/// A declaration of a static member, which by itself leaves it as it is.
#[tactic(auto, using(check_scope::proofs::Rows::rows))]
fn declared_static(
    alloc: Global,
    index: u32,
    is_reference: bool,
    kind: Kind,
    making: &Making,
    place: Place,
) -> Result<Denoted, TypeFault>
    ensures made { IfOk result
        (λ m. definition.declared_static index is_reference kind (view_making making.now) place
        ≡ view_denoted m) }
    ensures memory { IfErr result (λ why. why ≡ memory out_of_memory) }
{
    let makes = makes_object(is_reference, kind, making);
    let spot = Spot::Static(index);
    let read = TypedExpr::Variadic {
        operation: Variadic::Read(spot),
        operands: List::from_vec(Vec::new(alloc)),
        place,
    };
    let alone = boxed(alloc, read)?;
    let address = List::from_vec(Vec::new(alloc));
    let target = Target {
        spot,
        address,
        kind,
    };
    Ok(Denoted::Declared(Declaration {
        target,
        alone,
        makes,
    }))
}

/// A declaration in a class.
fn declared_member(
    alloc: Global,
    table: &Table,
    scope: &Scope,
    line: u32,
    head: &DeclHead,
    making: Making,
    member: Option<Member>,
) -> Result<Denoted, TypeFault>
    ensures { Answers view_denoted result
        (definition.declared_member table.now scope.now line head.now (view_making making)
        member) }
{
    let is_reference = head.is_reference;
    match member {
        Some(Member::Field { index, kind }) => {
            declared_field(alloc, table, scope, line, index, is_reference, kind, making)
        }
        Some(Member::Static { index, kind }) => {
            declared_static(alloc, index, is_reference, kind, &making, scope.place(line))
        }
        _ => Err(scope.wrong(line, FaultKind::UnknownName)),
    }
}

/// A declaration of a file variable, which is seen from then on.
fn declared_variable(
    alloc: Global,
    table: &Table,
    scope: &mut Scope,
    line: u32,
    head: &DeclHead,
    making: Making,
    variable: Option<Variable>,
) -> Result<Denoted, TypeFault>
    ensures meant { Answers (λ m. record { means = view_denoted m; scope = scope.new }) result
        (definition.declared_variable table.now scope.old line head.now (view_making making)
        variable) }
    ensures grown { length scope.new.locals ≤ length scope.old.locals + 1 }
{
    let Some(variable) = variable else {
        return Err(scope.wrong(line, FaultKind::UnknownName));
    };
    let spot = Spot::Static(variable.index);
    let is_reference = head.is_reference;
    let kind = variable.kind;
    let declared = declared_here(alloc, table, scope, line, spot, is_reference, kind, making)?;
    scope.reach(u64::from(variable.index) + 1);
    Ok(declared)
}

/// A declaration of a file variable, or of a member of the class.
fn declared_global(
    alloc: Global,
    table: &Table,
    scope: &mut Scope,
    line: u32,
    head: &DeclHead,
    name: &Text,
    making: Making,
) -> Result<Denoted, TypeFault>
    ensures meant { Answers (λ m. record { means = view_denoted m; scope = scope.new }) result
        (definition.declared_global table.now scope.old line head.now name.now
        (view_making making) scope.old.class) }
    ensures grown { length scope.new.locals ≤ length scope.old.locals + 1 }
{
    match scope.class() {
        Some(class) => {
            let member = table.member(class, name);
            declared_member(alloc, table, scope, line, head, making, member)
        }
        None => {
            let variable = table.variable(scope.file(), name);
            declared_variable(alloc, table, scope, line, head, making, variable)
        }
    }
}

/// A declaration of a local that its block doesn't have yet.
fn declared_local(
    alloc: Global,
    table: &Table,
    scope: &mut Scope,
    line: u32,
    head: &DeclHead,
    name: &Text,
    making: Making,
    kind: Option<Kind>,
) -> Result<Denoted, TypeFault>
    requires few { length scope.old.locals < 2 ^ 32 }
    ensures meant { Answers (λ m. record { means = view_denoted m; scope = scope.new }) result
        ((if is_declared scope.old name.now then wrong scope.old.file line duplicate else
        definition.declared_local table.now scope.old line head.now name.now
        (view_making making) kind)) }
    ensures grown { length scope.new.locals ≤ length scope.old.locals + 1 }
{
    if scope.is_declared(name) {
        return Err(scope.wrong(line, FaultKind::Duplicate));
    }
    let Some(kind) = kind else {
        return Err(scope.wrong(line, FaultKind::Mismatch));
    };
    if !sizes_are_ints(&making) {
        return Err(scope.wrong(line, FaultKind::Mismatch));
    }
    let has_place = has_place(head, &making);
    let spot = Spot::Local(scope.next());
    let is_reference = head.is_reference;
    let declared = declared_here(alloc, table, scope, line, spot, is_reference, kind, making)?;
    if !has_place {
        return Err(scope.wrong(line, FaultKind::BadPlace));
    }
    scope.declare(alloc, name, kind, line)?;
    Ok(declared)
}

/// Whether nothing stands behind a declared name.
fn is_bare(tail: &DeclaratorTail) -> bool
    ensures { (name : Name) → result ≡ definition.is_bare (view_tail name tail.now) }
{
    match tail {
        DeclaratorTail::Brackets(brackets) => brackets.items().is_empty(),
        DeclaratorTail::Arguments(_) => false,
    }
}

/// A declaration with `auto`, which isn't declared before it has a type.
#[tactic(auto, using(crate::proofs::Tails::names))]
fn auto_meaning(
    scope: &Scope,
    alloc: Global,
    line: u32,
    head: &DeclHead,
    declarator: &Declarator,
) -> Result<Denoted, TypeFault>
    ensures { Answers (λ m. record { means = view_denoted m; scope = scope.now }) result
        (definition.auto_meaning scope.now line head.now (view_declr declarator.now)) }
{
    let is_global = scope.declares_globals();
    if !is_global && scope.is_declared(&declarator.name) {
        return Err(scope.wrong(line, FaultKind::Duplicate));
    }
    let is_member = is_global && scope.class().is_some();
    let has_form = !head.is_static && !head.is_reference && is_bare(&declarator.tail) && !is_member;
    Ok(Denoted::Auto {
        name: declarator.name.try_clone(alloc)?,
        has_form,
    })
}

/// The type that a declaration gives its name by what stands behind that.
fn written_kind(head: &DeclHead, named: Named, declarator: &Declarator) -> Option<Kind>
    ensures { result ≡ written_kind head.now named (view_declr declarator.now) }
{
    match &declarator.tail {
        DeclaratorTail::Brackets(brackets) => declared_kind(head, named, brackets.items()),
        DeclaratorTail::Arguments(_) => made_kind(named),
    }
}

/// A declaration of a written type.
#[tactic(auto, using(crate::proofs::Tails::names))]
fn declared_as(
    alloc: Global,
    table: &Table,
    scope: &mut Scope,
    line: u32,
    head: &DeclHead,
    declarator: &Declarator,
    making: Making,
    named: Named,
) -> Result<Denoted, TypeFault>
    requires few { length scope.old.locals < 2 ^ 32 }
    ensures meant { Answers (λ m. record { means = view_denoted m; scope = scope.new }) result
        (definition.declared_as table.now scope.old line head.now (view_declr declarator.now)
        (view_making making) named) }
    ensures grown { length scope.new.locals ≤ length scope.old.locals + 1 }
{
    let name = &declarator.name;
    if scope.declares_globals() {
        if !sizes_are_ints(&making) {
            return Err(scope.wrong(line, FaultKind::Mismatch));
        }
        return declared_global(alloc, table, scope, line, head, name, making);
    }
    if named.is_unknown() {
        return Err(scope.wrong(line, FaultKind::UnknownName));
    }
    let kind = written_kind(head, named, declarator);
    declared_local(alloc, table, scope, line, head, name, making, kind)
}

/// What a declaration stands for; its name is seen from then on, but for one with `auto`.
pub fn declaration_meaning(
    alloc: Global,
    table: &Table,
    scope: &mut Scope,
    line: u32,
    head: &DeclHead,
    declarator: &Declarator,
    making: Making,
) -> Result<Denoted, TypeFault>
    requires few { length scope.old.locals < 2 ^ 32 }
    ensures meant { Answers (λ m. record { means = view_denoted m; scope = scope.new }) result
        (definition.declaration_meaning table.now scope.old line head.now
        (view_declr declarator.now) (view_making making)) }
    ensures grown { length scope.new.locals ≤ length scope.old.locals + 1 }
{
    let Some(base) = &head.base else {
        return auto_meaning(scope, alloc, line, head, declarator);
    };
    let named = table.named(scope.file(), base);
    declared_as(alloc, table, scope, line, head, declarator, making, named)
}
