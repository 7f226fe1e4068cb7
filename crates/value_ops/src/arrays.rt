//! What is read of arrays.
ghost use Rattle.std.specs.Prelude.{◌≡◌, ◌<◌, pos, false, IfSome, IfNone, IfOk, IfErr, MatchResult};
ghost use Rattle.ck_values.specs.Datum.{meant, AnInt, ARef};
ghost use Rattle.ck_store.specs.Store.{Gives, Fails, IsFitting};
ghost use Rattle.ck_store.specs.Arrays.{array_at, item_of, item_count, has_item, is_within};
ghost use Rattle.value_ops.specs.Heaps.{objects_of, IsArrayOf};

use ck_values::{Ref, Trap, Value};
use object_heap::{Body, Heap};

/// The items of the array that a reference refers to. `NullPointer` comes exactly where it is null.
pub(crate) fn items_of(heap: &Heap, at: Ref) -> Result<&[Value], Trap>
    requires first { heap.now.first ≡ 1 }
    requires array { IsFitting (array_at (objects_of heap.now) (ARef at.serial)) }
    ensures found { IfOk result (λ items. IsArrayOf heap.now at items.now) }
    ensures null { IfErr result (λ trap.
        array_at (objects_of heap.now) (ARef at.serial) ≡ Fails trap) }
{
    if at.serial == 0 {
        return Err(Trap::NullPointer);
    }
    match heap.body(at) {
        Body::Array {
            elem: _,
            two: _,
            items,
        } => Ok(items.items()),
        _ => unreachable!(),
    }
}

/// The place that an index names among `n` items, if it does.
#[tactic(auto, unfolding(ck_store::specs::Arrays::is_within))]
pub(crate) fn place_of(index: i64, n: usize) -> Option<usize>
    ensures place { IfSome result (λ i. (index ≡ pos i) × (i < n)) }
    ensures none { IfNone result (is_within (AnInt index) n ≡ Gives false) }
{
    if index < 0 {
        return None;
    }
    let i = index as usize;
    if i < n { Some(i) } else { None }
}

/// The item of an array at this index, from 0; it is not copied. `NullPointer` comes exactly where
/// the reference is null, and `ArrayOutOfBounds` exactly where the index is below 0 or not below
/// the size.
#[tactic(auto, using(crate::proofs::Items::items))]
pub fn item(heap: &Heap, at: Ref, index: i64) -> Result<&Value, Trap>
    requires first { heap.now.first ≡ 1 }
    requires array { IsFitting (array_at (objects_of heap.now) (ARef at.serial)) }
    ensures { MatchResult result
        (λ v. item_of (objects_of heap.now) (ARef at.serial) (AnInt index) ≡ Gives (meant v.now))
        (λ trap. item_of (objects_of heap.now) (ARef at.serial) (AnInt index) ≡ Fails trap) }
{
    let items = items_of(heap, at)?;
    match place_of(index, items.len()) {
        Some(i) => Ok(&items[i]),
        None => Err(Trap::ArrayOutOfBounds),
    }
}

/// How many items an array has. `NullPointer` comes exactly where the reference is null.
#[tactic(auto, using(crate::proofs::Items::items))]
pub fn size(heap: &Heap, at: Ref) -> Result<i64, Trap>
    requires first { heap.now.first ≡ 1 }
    requires array { IsFitting (array_at (objects_of heap.now) (ARef at.serial)) }
    ensures { MatchResult result
        (λ n. item_count (objects_of heap.now) (ARef at.serial) ≡ Gives (AnInt n))
        (λ trap. item_count (objects_of heap.now) (ARef at.serial) ≡ Fails trap) }
{
    Ok(items_of(heap, at)?.len() as i64)
}

/// Whether an array has an item at this index, from 0. `NullPointer` comes exactly where the
/// reference is null.
#[tactic(auto, using(crate::proofs::Items::items))]
pub fn has_item(heap: &Heap, at: Ref, index: i64) -> Result<bool, Trap>
    requires first { heap.now.first ≡ 1 }
    requires array { IsFitting (array_at (objects_of heap.now) (ARef at.serial)) }
    ensures { MatchResult result
        (λ has. has_item (objects_of heap.now) (ARef at.serial) (AnInt index) ≡ Gives has)
        (λ trap. has_item (objects_of heap.now) (ARef at.serial) (AnInt index) ≡ Fails trap) }
{
    let items = items_of(heap, at)?;
    Ok(place_of(index, items.len()).is_some())
}
