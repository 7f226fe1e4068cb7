//! What variables begin with.

ghost use Rattle.std.specs.Prelude.{◌≡◌, [], ◌∷◌, ◌++◌, map, IfOk, OnOk, OnErr};
ghost use Rattle.shred_state.specs.Values.{first_value};

use ck_base::Text;
use ck_values::{Elem, Kind, Ref, Value};
use fixed_point::{Fix, Memory};
use std::alloc::Global;

/// Adds what variables of these kinds begin with; for want of memory the values stay as they were.
#[inline(always)] // most functions have no variables but their parameters
pub fn add_first_values(
    alloc: Global,
    values: &mut Vec<Value>,
    kinds: &[Kind],
) -> Result<(), Memory>
    ensures added { OnOk result (values.new.items ≡ values.old.items ++ map first_value kinds.now) }
    ensures same { OnErr result (values.new.items ≡ values.old.items) }
{
    if kinds.is_empty() {
        return Ok(());
    }
    add_each(alloc, values, kinds)
}

/// The same, one after the other.
#[inline(never)]
fn add_each(alloc: Global, values: &mut Vec<Value>, kinds: &[Kind]) -> Result<(), Memory>
    ensures added { OnOk result (values.new.items ≡ values.old.items ++ map first_value kinds.now) }
    ensures same { OnErr result (values.new.items ≡ values.old.items) }
{
    let before = values.len();
    for kind in kinds {
        if let Err(memory) = add_one(alloc, values, *kind) {
            values.truncate(before);
            return Err(memory);
        }
    }
    Ok(())
}

/// Adds what a variable of this kind begins with; for want of memory the values stay as they were.
fn add_one(alloc: Global, values: &mut Vec<Value>, kind: Kind) -> Result<(), Memory>
    ensures added { OnOk result (values.new.items ≡ values.old.items ++ first_value kind ∷ []) }
    ensures same { OnErr result (values.new.items ≡ values.old.items) }
{
    values.push(first_value(alloc, kind)?)?;
    Ok(())
}

/// What a variable of this kind begins with.
fn first_value(alloc: Global, kind: Kind) -> Result<Value, Memory>
    ensures { IfOk result (λ v. v ≡ first_value kind) }
{
    const NULL: Ref = Ref { serial: 0, slot: 0 };
    Ok(match kind {
        Kind::One(Elem::Int) => Value::Int(0),
        Kind::One(Elem::Float) => Value::Float(Fix::from_raw(0)),
        Kind::One(Elem::Dur) => Value::Dur(0),
        Kind::One(Elem::Time) => Value::Time(0),
        Kind::One(Elem::Text) => Value::Text(Text::from_bytes(alloc, &[])?),
        Kind::One(Elem::Shred) => Value::Shred(0),
        Kind::One(Elem::Class(_) | Elem::Unit(_))
        | Kind::Row(_)
        | Kind::Grid(_)
        | Kind::Void
        | Kind::Null => Value::Ref(NULL),
    })
}
