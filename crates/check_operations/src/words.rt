//! Words that are expressions by themselves, and units of durations.
ghost use Rattle.std.specs.Prelude.{◌≡◌, pos, true, IfOk, IfErr};
ghost use Rattle.ck_values.specs.declared.kind.Kind.TheVariants.{Null as no_kind};
ghost use Rattle.ck_syntax.specs.View.{view_expr};
ghost use Rattle.ck_typed.specs.Tree as form;
ghost use Rattle.ck_typed.specs.declared.operation.Leaf.TheVariants as leaf_op;
ghost use Rattle.check_scope.specs.Expressions as definition;
ghost use Rattle.check_scope.specs.Denotations.{value};
ghost use Rattle.check_scope.specs.Scope.{place as place_of};
ghost use Rattle.check_scope.specs.View.{view_typed, Answers, view_value};
ghost use Rattle.fixed_point.specs.Wanting.{out_of_memory};
ghost use Rattle.type_table.specs.declared.fault.TypeFault.TheVariants.{Memory as memory};

use check_scope::{Scope, Typed, boxed};
use ck_base::List;
use ck_syntax::{Constant, Expr, ExprKind, TimeUnit};
use ck_typed::{Leaf, Spot, TypedExpr, Variadic};
use ck_values::{Elem, Kind};
use std::alloc::Global;
use type_table::{FaultKind, Table, TypeFault};
use ugen_names::UgenKind;

/// `this`, which is the local of this number.
#[tactic(auto, using(check_scope::proofs::Rows::rows))]
fn this_value(
    alloc: Global,
    scope: &Scope,
    line: u32,
    local: Option<u32>,
) -> Result<Typed, TypeFault>
    ensures { Answers view_value result
        (definition.this_value scope.now (place_of scope.now line) line local) }
{
    let Some(local) = local else {
        return Err(scope.wrong(line, FaultKind::BadPlace));
    };
    let place = scope.place(line);
    let address = List::from_vec(Vec::new(alloc));
    let spot = Spot::Local(local);
    let read = TypedExpr::Variadic {
        operation: Variadic::Read(spot),
        operands: address,
        place,
    };
    Typed::new(alloc, read, scope.local_kind(local), place)
}

/// `null`, whose type is not settled yet.
fn null(alloc: Global, scope: &Scope, line: u32) -> Result<Typed, TypeFault>
    ensures made { IfOk result
        (λ t. view_typed t
        ≡ record {
          expr = form.Leaf leaf_op.Null (place_of scope.now line);
          kind = no_kind;
          place = place_of scope.now
              line;
          is_null = true;
        }) }
    ensures memory { IfErr result (λ why. why ≡ memory out_of_memory) }
{
    let place = scope.place(line);
    Ok(Typed {
        expr: boxed(alloc, TypedExpr::Leaf(Leaf::Null, place))?,
        kind: Kind::Null,
        place,
        is_null: true,
    })
}

/// The value of a word.
pub fn word_meaning(
    alloc: Global,
    table: &Table,
    scope: &Scope,
    line: u32,
    word: Constant,
) -> Result<Typed, TypeFault>
    ensures { Answers view_value result (definition.word_meaning table.now scope.now line word) }
{
    let (leaf, elem) = match word {
        Constant::True => (Leaf::Int(1), Elem::Int),
        Constant::False => (Leaf::Int(0), Elem::Int),
        Constant::Now => (Leaf::Now, Elem::Time),
        Constant::Me => (Leaf::Me, Elem::Shred),
        Constant::Dac => (Leaf::Dac, Elem::Unit(UgenKind::UGen)),
        Constant::Blackhole => (Leaf::Blackhole, Elem::Unit(UgenKind::UGen)),
        Constant::Null => return null(alloc, scope, line),
        Constant::This => return this_value(alloc, scope, line, scope.this_local(table)),
    };
    let place = scope.place(line);
    Typed::new(alloc, TypedExpr::Leaf(leaf, place), Kind::One(elem), place)
}

/// A unit in samples.
#[derive(Clone, Copy, PartialEq, Eq)]
pub(crate) struct Samples {
    pub numerator: i64,
    pub denominator: i64,
}

/// A unit in samples.
pub(crate) fn samples_of(unit: TimeUnit) -> Samples
    ensures numerator { result.numerator ≡ (definition.samples_of unit).numerator }
    ensures denominator { result.denominator ≡ (definition.samples_of unit).denominator }
{
    let (numerator, denominator) = match unit {
        TimeUnit::Samp => (1, 1),
        TimeUnit::Ms => (441, 10),
        TimeUnit::Second => (44_100, 1),
        TimeUnit::Minute => (2_646_000, 1),
        TimeUnit::Hour => (158_760_000, 1),
        TimeUnit::Day => (3_810_240_000, 1),
        TimeUnit::Week => (26_671_680_000, 1),
    };
    Samples {
        numerator,
        denominator,
    }
}

/// A unit's name by itself: so many whole samples.
pub(crate) fn whole_samples(unit: TimeUnit) -> i64
    ensures { result ≡ pos (definition.whole_samples unit) }
{
    match unit {
        TimeUnit::Samp => 1,
        TimeUnit::Ms => 44,
        TimeUnit::Second => 44_100,
        TimeUnit::Minute => 2_646_000,
        TimeUnit::Hour => 158_760_000,
        TimeUnit::Day => 3_810_240_000,
        TimeUnit::Week => 26_671_680_000,
    }
}

/// A unit's name, in parentheses or not.
pub fn unit_in(e: &Expr) -> Option<TimeUnit>
    ensures { result ≡ definition.unit_in (view_expr e.now) }
{
    match &e.kind {
        ExprKind::Unit(unit) => Some(*unit),
        ExprKind::Paren(inner) => unit_in(inner),
        _ => None,
    }
}
