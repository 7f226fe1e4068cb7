//! Which types fit which: where one is wanted, a value of the other may stand.
ghost use Rattle.std.specs.Prelude.{◌≡◌, slice_get};
ghost use Rattle.type_rules.specs.Fitting.{parent_or, below, is_below, same_elem, elem_fits, is_reference, kind_fits, chosen};

use ck_base::limits::MAX_ANCESTORS;
use ck_values::{Elem, Kind};
use ugen_names::UgenKind;

/// The parent of a class; `Object` has itself.
fn parent(parents: &[u32], class: u32) -> u32
    ensures { result ≡ parent_or (slice_get parents.now class) }
{
    match parents.get(class as usize) {
        Some(parent) => *parent,
        None => 0,
    }
}

/// Whether a class is this one, or stands at most so many steps below it.
pub fn is_within(parents: &[u32], steps: u32, class: u32, ancestor: u32) -> bool
    ensures { result ≡ below parents.now steps class ancestor }
{
    let mut at = class;
    for _ in 0..steps {
        if at == ancestor {
            return true;
        }
        at = parent(parents, at);
    }
    at == ancestor
}

/// Whether a class is this one, or one of its ancestors is.
pub fn is_below(parents: &[u32], class: u32, ancestor: u32) -> bool
    ensures { result ≡ is_below parents.now class ancestor }
{
    is_within(parents, MAX_ANCESTORS, class, ancestor)
}

/// Whether two types are the same.
pub fn is_same(a: Elem, b: Elem) -> bool
    ensures { result ≡ same_elem a b }
{
    match (a, b) {
        (Elem::Int, Elem::Int)
        | (Elem::Float, Elem::Float)
        | (Elem::Dur, Elem::Dur)
        | (Elem::Time, Elem::Time)
        | (Elem::Text, Elem::Text)
        | (Elem::Shred, Elem::Shred) => true,
        (Elem::Class(c), Elem::Class(d)) => c == d,
        (Elem::Unit(a), Elem::Unit(b)) => a == b,
        _ => false,
    }
}

/// Whether one value of the first type fits the second.
fn elem_fits(parents: &[u32], from: Elem, to: Elem) -> bool
    ensures { result ≡ elem_fits parents.now from to }
{
    match (from, to) {
        (Elem::Int, Elem::Float) => true,
        (Elem::Class(class), Elem::Class(ancestor)) => is_below(parents, class, ancestor),
        (Elem::Unit(a), Elem::Unit(b)) => b == UgenKind::UGen || a == b,
        _ => is_same(from, to),
    }
}

/// Whether a value of this type is a reference.
pub fn is_reference(elem: Elem) -> bool
    ensures { result ≡ is_reference elem }
{
    matches!(elem, Elem::Class(_) | Elem::Unit(_))
}

/// Whether the first type fits the second, where the classes have these parents by their numbers.
/// The literal `null` fits a shred besides, as a null of shreds, which isn't among these types.
pub fn fits(parents: &[u32], from: Kind, to: Kind) -> bool
    ensures { result ≡ kind_fits parents.now from to }
{
    match (from, to) {
        (Kind::Void, Kind::Void) | (Kind::Null, Kind::Null | Kind::Row(_) | Kind::Grid(_)) => true,
        (Kind::Null, Kind::One(elem)) => is_reference(elem),
        (Kind::One(a), Kind::One(b)) => elem_fits(parents, a, b),
        (Kind::Row(a), Kind::Row(b)) | (Kind::Grid(a), Kind::Grid(b)) => is_same(a, b),
        _ => false,
    }
}

/// The type of a choice between values of these types: the one that the other fits, which is the
/// second one where each fits the other. `None` where neither fits the other.
pub fn chosen(parents: &[u32], first: Kind, second: Kind) -> Option<Kind>
    ensures { result ≡ chosen parents.now first second }
{
    if fits(parents, first, second) {
        Some(second)
    } else if fits(parents, second, first) {
        Some(first)
    } else {
        None
    }
}
