//! Literals and the names of units.
ghost use Rattle.std.specs.Prelude.{◌≡◌, IfOk, IfErr, pos};
ghost use Rattle.ck_values.specs.declared.kind.Elem.TheVariants as elem;
ghost use Rattle.ck_values.specs.declared.kind.Kind.TheVariants.{One};
ghost use Rattle.ck_typed.specs.Tree as form;
ghost use Rattle.ck_typed.specs.declared.operation.Leaf.TheVariants as leaf_op;
ghost use Rattle.check_scope.specs.Denotations.{typed_as};
ghost use Rattle.check_scope.specs.Scope.{place};
ghost use Rattle.check_scope.specs.Expressions.{whole_samples as whole};
ghost use Rattle.check_scope.specs.View.{view_typed};
ghost use Rattle.fixed_point.specs.Wanting.{out_of_memory};
ghost use Rattle.type_table.specs.declared.fault.TypeFault.TheVariants.{Memory as memory};

use crate::words::whole_samples;
use check_scope::{Scope, Typed};
use ck_base::Text;
use ck_syntax::TimeUnit;
use ck_typed::{Leaf, TypedExpr};
use ck_values::{Elem, Kind};
use fixed_point::Fix;
use std::alloc::Global;
use type_table::TypeFault;

/// An int.
pub fn int(alloc: Global, scope: &Scope, line: u32, value: i64) -> Result<Typed, TypeFault>
    ensures made { IfOk result
        (λ t. view_typed t
        ≡ typed_as (form.Leaf (leaf_op.Int value) (place scope.now line)) (One elem.Int)
        (place scope.now line)) }
    ensures memory { IfErr result (λ why. why ≡ memory out_of_memory) }
{
    let place = scope.place(line);
    let int = TypedExpr::Leaf(Leaf::Int(value), place);
    Typed::new(alloc, int, Kind::One(Elem::Int), place)
}

/// A float.
pub fn float(alloc: Global, scope: &Scope, line: u32, value: Fix) -> Result<Typed, TypeFault>
    ensures made { IfOk result
        (λ t. view_typed t
        ≡ typed_as (form.Leaf (leaf_op.Float value) (place scope.now line)) (One elem.Float)
        (place scope.now line)) }
    ensures memory { IfErr result (λ why. why ≡ memory out_of_memory) }
{
    let place = scope.place(line);
    let float = TypedExpr::Leaf(Leaf::Float(value), place);
    Typed::new(alloc, float, Kind::One(Elem::Float), place)
}

/// A string.
pub fn text(alloc: Global, scope: &Scope, line: u32, value: &Text) -> Result<Typed, TypeFault>
    ensures made { IfOk result
        (λ t. view_typed t
        ≡ typed_as (form.Text value.now (place scope.now line)) (One elem.Text)
        (place scope.now line)) }
    ensures memory { IfErr result (λ why. why ≡ memory out_of_memory) }
{
    let place = scope.place(line);
    let value = value.try_clone(alloc)?;
    let text = TypedExpr::Text { value, place };
    Typed::new(alloc, text, Kind::One(Elem::Text), place)
}

/// A unit's name by itself: so many whole samples.
pub fn unit(alloc: Global, scope: &Scope, line: u32, unit: TimeUnit) -> Result<Typed, TypeFault>
    ensures made { IfOk result
        (λ t. view_typed t
        ≡ typed_as (form.Leaf (leaf_op.Dur (pos (whole unit))) (place scope.now line))
        (One elem.Dur)
        (place scope.now line)) }
    ensures memory { IfErr result (λ why. why ≡ memory out_of_memory) }
{
    let place = scope.place(line);
    let value = whole_samples(unit);
    let dur = TypedExpr::Leaf(Leaf::Dur(value), place);
    Typed::new(alloc, dur, Kind::One(Elem::Dur), place)
}
