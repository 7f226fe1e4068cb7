//! Changes of arrays.
ghost use Rattle.std.specs.Prelude.{◌≡◌, pos, ◌+ℤ◌, true, OnOk, OnErr, IfOk, IfErr};
ghost use Rattle.ck_values.specs.Datum.{meant, AnInt, ARef};
ghost use Rattle.ck_store.specs.Store.{Store, Gives, Fails, IsFitting};
ghost use Rattle.ck_store.specs.Operators.{wrapped};
ghost use Rattle.ck_store.specs.Arrays.{array_at, item_of, with_item, appended, cleared, filled};
ghost use Rattle.value_ops.specs.Ends.{IsEnd, left_over};
ghost use Rattle.value_ops.specs.Heaps.{objects_of, with_heap, KeepsUnits};

use crate::arrays::{items_of, place_of};
use crate::end::OpEnd;
use ck_base::limits::MAX_ITEMS;
use ck_values::{Ref, Trap, Value};
use object_heap::Heap;

/// Puts a value in the place of the item of an array at this index, from 0, and hands the old item
/// back. `NullPointer` comes exactly where the reference is null, and `ArrayOutOfBounds` exactly
/// where the index is below 0 or not below the size; the value is handed back then.
#[tactic(auto, using(crate::proofs::Changes::changes))]
pub fn set_item(heap: &mut Heap, at: Ref, index: i64, v: Value) -> Result<Value, (Trap, Value)>
    requires first { heap.old.first ≡ 1 }
    requires array { IsFitting (array_at (objects_of heap.old) (ARef at.serial)) }
    ensures set { (store : Store) → OnOk result
        (with_item (with_heap store heap.old) (ARef at.serial) (AnInt index) (meant v)
        ≡ Gives (with_heap store heap.new)) }
    ensures old { IfOk result (λ old.
        item_of (objects_of heap.old) (ARef at.serial) (AnInt index) ≡ Gives (meant old)) }
    ensures trap { (store : Store) → IfErr result (λ e.
        (with_item (with_heap store heap.old) (ARef at.serial) (AnInt index) (meant v)
        ≡ Fails e.0) × (e.1 ≡ v)) }
    ensures same { OnErr result (heap.new ≡ heap.old) }
    ensures first { heap.new.first ≡ heap.old.first }
    ensures units { KeepsUnits heap.old heap.new }
{
    let n = match items_of(heap, at) {
        Ok(items) => items.len(),
        Err(trap) => return Err((trap, v)),
    };
    match place_of(index, n) {
        Some(i) => Ok(heap.set(at, i, v)),
        None => Err((Trap::ArrayOutOfBounds, v)),
    }
}

/// Puts a value at the end of an array. `NullPointer` comes exactly where the reference is null,
/// and `ArrayLimit` exactly where the array has 1,048,576 items; the value is handed back then, as
/// it is for want of memory.
#[tactic(auto, using(crate::proofs::Changes::changes))]
pub fn append(heap: &mut Heap, at: Ref, v: Value) -> Result<(), (OpEnd, Value)>
    requires first { heap.old.first ≡ 1 }
    requires array { IsFitting (array_at (objects_of heap.old) (ARef at.serial)) }
    ensures added { (store : Store) → OnOk result
        (appended (with_heap store heap.old) (ARef at.serial) (meant v)
        ≡ Gives (with_heap store heap.new)) }
    ensures end { (store : Store) → IfErr result (λ e.
        IsEnd true e.0 (appended (with_heap store heap.old) (ARef at.serial) (meant v))
        × (e.1 ≡ v)) }
    ensures same { OnErr result (heap.new ≡ heap.old) }
    ensures first { heap.new.first ≡ heap.old.first }
    ensures units { KeepsUnits heap.old heap.new }
{
    let n = match items_of(heap, at) {
        Ok(items) => items.len(),
        Err(trap) => return Err((OpEnd::Trap(trap), v)),
    };
    if n >= MAX_ITEMS as usize {
        return Err((OpEnd::Trap(Trap::ArrayLimit), v));
    }
    match heap.grow(at, v) {
        Ok(()) => Ok(()),
        Err(back) => Err((OpEnd::Memory(back.memory), back.value)),
    }
}

/// Takes all items of an array away. `NullPointer` comes exactly where the reference is null. It
/// takes no memory.
#[tactic(auto, using(crate::proofs::Changes::changes))]
pub fn clear(heap: &mut Heap, at: Ref) -> Result<(), Trap>
    requires first { heap.old.first ≡ 1 }
    requires array { IsFitting (array_at (objects_of heap.old) (ARef at.serial)) }
    ensures cleared { (store : Store) → OnOk result
        (cleared (with_heap store heap.old) (ARef at.serial) ≡ Gives (with_heap store heap.new)) }
    ensures trap { (store : Store) → IfErr result (λ trap.
        cleared (with_heap store heap.old) (ARef at.serial) ≡ Fails trap) }
    ensures same { OnErr result (heap.new ≡ heap.old) }
    ensures first { heap.new.first ≡ heap.old.first }
    ensures units { KeepsUnits heap.old heap.new }
{
    let n = items_of(heap, at)?.len();
    for _ in 0..n {
        heap.clear_one(at);
    }
    Ok(())
}

/// Puts a value in the place of the item of an array at this index, from 0, where the array has it
/// still. What stands nowhere then is handed back: the old item, or the value. `NullPointer` comes
/// exactly where the reference is null; the value is handed back then. The next index is
/// `index.wrapping_add(1)`.
#[tactic(auto, using(crate::proofs::Changes::changes))]
pub fn fill(heap: &mut Heap, at: Ref, index: i64, v: Value) -> Result<Value, (Trap, Value)>
    requires first { heap.old.first ≡ 1 }
    requires array { IsFitting (array_at (objects_of heap.old) (ARef at.serial)) }
    ensures filled { (store : Store) → OnOk result
        (filled (with_heap store heap.old) (ARef at.serial) (AnInt index) (meant v)
        ≡ Gives (record {
          next = AnInt (wrapped (index +ℤ pos 1));
          store = with_heap store heap.new;
        })) }
    ensures over { IfOk result (λ over. meant over
        ≡ left_over (item_of (objects_of heap.old) (ARef at.serial) (AnInt index)) (meant v)) }
    ensures trap { (store : Store) → IfErr result (λ e.
        (filled (with_heap store heap.old) (ARef at.serial) (AnInt index) (meant v)
        ≡ Fails e.0) × (e.1 ≡ v)) }
    ensures same { OnErr result (heap.new ≡ heap.old) }
    ensures first { heap.new.first ≡ heap.old.first }
    ensures units { KeepsUnits heap.old heap.new }
{
    let n = match items_of(heap, at) {
        Ok(items) => items.len(),
        Err(trap) => return Err((trap, v)),
    };
    match place_of(index, n) {
        Some(i) => Ok(heap.set(at, i, v)),
        None => Ok(v),
    }
}
