//! Runs of holds, releases and reaps. What is expected is worked out by hand.

ghost use Rattle.std.specs.Prelude.{◌≡◌, ◌<◌, ◌≤◌, ◌+◌, [], ◌∷◌, IfOk, OnOk, IsSomeAnd};
ghost use Rattle.ck_values.specs.declared.kind.Elem.TheVariants as elem;
ghost use Rattle.ck_base.specs.declared.limits.TheConstants.{MAX_OBJECTS};
ghost use Rattle.ck_values.specs.declared.reference.Ref.{Ref};
ghost use Rattle.ck_values.specs.declared.value.Value.TheVariants as value;
ghost use Rattle.object_heap.specs.declared.body.Body.TheVariants as body;
ghost use Rattle.object_heap.specs.Objects.{IsArray, values_of};
ghost use Rattle.counted_heap.specs.Places.{hit, places};
ghost use Rattle.counted_heap.specs.Counted.{count, outside, object, IsAmong, AreAmong, Leaves};
ghost use Rattle.counted_heap.specs.Counted.{SameHolds, SameObjects, Makes};

use crate::CountedHeap;
use ck_base::List;
use ck_base::limits::MAX_OBJECTS;
use ck_values::{Elem, Ref, Value};
use object_heap::{Body, MakeEnd};
use std::alloc::{AllocError, Global};
use std::test::Fail;

fn no_values(alloc: Global) -> List<Value>
    ensures { result ≡ [] }
{
    List::from_vec(Vec::new(alloc))
}

fn one_value(alloc: Global, v: Value) -> Result<List<Value>, AllocError>
    ensures { IfOk result (λ values. values ≡ v ∷ []) }
{
    Ok(List::from_vec(vec![in alloc; v]?))
}

fn two_values(alloc: Global, v: Value, w: Value) -> Result<List<Value>, AllocError>
    ensures { IfOk result (λ values. values ≡ v ∷ w ∷ []) }
{
    Ok(List::from_vec(vec![in alloc; v, w]?))
}

/// A new instance of a class.
fn instance(heap: &mut CountedHeap, class: u32, fields: List<Value>) -> Result<Ref, Fail>
    requires { AreAmong heap.old fields }
    ensures { IfOk result (λ at. Makes heap.old heap.new at (body.Instance class fields)) }
{
    match heap.make(Body::Instance { class, fields }) {
        Ok(at) => Ok(at),
        Err(_) => Err(Fail::new("no instance was made")),
    }
}

/// A new array of ints, or of references to such arrays.
fn array(heap: &mut CountedHeap, two: bool, items: List<Value>) -> Result<Ref, Fail>
    requires { AreAmong heap.old items }
    ensures { IfOk result (λ at. Makes heap.old heap.new at (body.Array elem.Int two items)) }
{
    let elem = Elem::Int;
    match heap.make(Body::Array { elem, two, items }) {
        Ok(at) => Ok(at),
        Err(_) => Err(Fail::new("no array was made")),
    }
}

/// One more hold of an object.
fn hold(heap: &mut CountedHeap, at: Ref) -> Result<(), Fail>
    requires { 0 < count heap.old at }
    ensures holds { OnOk result ((r : Ref) → outside heap.new r ≡ outside heap.old r + hit r at) }
    ensures objects { SameObjects heap.old heap.new }
{
    match heap.hold(at) {
        Ok(()) => Ok(()),
        Err(_) => Err(Fail::new("no hold was taken")),
    }
}

/// The reference in a value.
fn referred(v: Value) -> Result<Ref, Fail>
    ensures is { IfOk result (λ at. v ≡ value.Ref at) }
    ensures some { IfOk result (λ at. 0 < at.serial) }
{
    match v {
        Value::Ref(at) if at.serial != 0 => Ok(at),
        _ => Err(Fail::new("no reference was handed out")),
    }
}

/// Reaps until no object is chained.
fn reap_all(heap: &mut CountedHeap)
    ensures { SameHolds heap.old heap.new }
{
    while let Some(_) = heap.reap() {}
}

/// The last of so many instances, of which each holds the one before.
fn chain(alloc: Global, heap: &mut CountedHeap, length: usize) -> Result<Ref, Fail>
    ensures { IfOk result (λ at. 0 < outside heap.new at) }
{
    let mut last = instance(heap, 0, no_values(alloc))?;
    for _ in 1..length {
        let fields = one_value(alloc, Value::Ref(last))?;
        last = instance(heap, 0, fields)?;
    }
    Ok(last)
}

#[test]
fn a_long_chain_goes_whole(rt: HostRuntime) -> Result<(), Fail> {
    let alloc = rt.alloc();
    let mut heap = CountedHeap::new(alloc, 1);
    let last = chain(alloc, &mut heap, 100_000)?;
    assert_eq!(rt;
        (last.serial, heap.live(), heap.made()),
        (100_000, 100_000, 100_000)
    );
    heap.release(last);
    assert_eq!(rt; heap.live(), 100_000);
    reap_all(&mut heap);
    assert_eq!(rt; (heap.live(), heap.made()), (0, 100_000));
    let next = instance(&mut heap, 0, no_values(alloc))?;
    assert_eq!(rt; (next.serial, heap.live()), (100_001, 1));
    Ok(())
}

#[test]
fn a_ring_stays(rt: HostRuntime) -> Result<(), Fail> {
    let alloc = rt.alloc();
    let mut heap = CountedHeap::new(alloc, 1);
    let fields = one_value(alloc, Value::Int(5))?;
    let first = instance(&mut heap, 0, fields)?;
    hold(&mut heap, first)?;
    let fields = one_value(alloc, Value::Ref(first))?;
    let second = instance(&mut heap, 0, fields)?;
    let old = heap.set(first, 0, Value::Ref(second));
    heap.release(first);
    assert!(rt; matches!(&old, Value::Int(5)));
    assert!(rt; heap.reap().is_none());
    assert_eq!(rt; (heap.live(), heap.made()), (2, 2));
    Ok(())
}

#[test]
fn an_object_in_two_items_goes_with_the_second(rt: HostRuntime) -> Result<(), Fail> {
    let alloc = rt.alloc();
    let mut heap = CountedHeap::new(alloc, 1);
    let it = instance(&mut heap, 0, no_values(alloc))?;
    hold(&mut heap, it)?;
    let items = two_values(alloc, Value::Ref(it), Value::Ref(it))?;
    let both = array(&mut heap, false, items)?;
    let old = referred(heap.set(both, 0, Value::Int(7)))?;
    heap.release(old);
    reap_all(&mut heap);
    assert!(rt; old == it);
    assert_eq!(rt; heap.live(), 2);
    heap.release(both);
    reap_all(&mut heap);
    assert_eq!(rt; (heap.live(), heap.made()), (0, 2));
    Ok(())
}

#[test]
fn rows_go_with_their_grid(rt: HostRuntime) -> Result<(), Fail> {
    let alloc = rt.alloc();
    let mut heap = CountedHeap::new(alloc, 1);
    let items = one_value(alloc, Value::Int(1))?;
    let first = array(&mut heap, false, items)?;
    let second = array(&mut heap, false, no_values(alloc))?;
    hold(&mut heap, second)?;
    let items = two_values(alloc, Value::Ref(first), Value::Ref(second))?;
    let grid = array(&mut heap, true, items)?;
    heap.release(grid);
    reap_all(&mut heap);
    assert_eq!(rt; (heap.live(), heap.made()), (1, 3));
    heap.release(second);
    reap_all(&mut heap);
    assert_eq!(rt; (heap.live(), heap.made()), (0, 3));
    Ok(())
}

#[test]
fn slots_are_used_again_under_new_numbers(rt: HostRuntime) -> Result<(), Fail> {
    let alloc = rt.alloc();
    let mut heap = CountedHeap::new(alloc, 5);
    let five = instance(&mut heap, 50, no_values(alloc))?;
    let six = instance(&mut heap, 60, no_values(alloc))?;
    heap.release(five);
    let seven = instance(&mut heap, 70, no_values(alloc))?;
    assert!(rt; seven.slot != five.slot && seven.slot != six.slot);
    let gone = heap.reap();
    assert!(rt; matches!(&gone, Some(Body::Instance { class: 50, .. })));
    let eight = instance(&mut heap, 80, no_values(alloc))?;
    assert_eq!(rt; (eight.serial, eight.slot), (8, five.slot));
    heap.release(six);
    heap.release(eight);
    reap_all(&mut heap);
    let nine = instance(&mut heap, 90, no_values(alloc))?;
    assert_eq!(rt; (nine.serial, heap.live(), heap.made()), (9, 2, 9));
    assert!(rt; nine.slot == six.slot || nine.slot == eight.slot);
    assert!(rt; matches!(heap.body(nine), Body::Instance { class: 90, .. }));
    Ok(())
}

#[test]
fn an_array_grows_and_is_cleared_at_its_end(rt: HostRuntime) -> Result<(), Fail> {
    let alloc = rt.alloc();
    let mut heap = CountedHeap::new(alloc, 1);
    let items = one_value(alloc, Value::Int(4))?;
    let it = array(&mut heap, false, items)?;
    let last = heap.clear_one(it);
    assert!(rt; matches!(&last, Some(Value::Int(4))));
    let items = no_values(alloc);
    let it = array(&mut heap, false, items)?;
    assert!(rt; heap.grow(it, Value::Int(6)).is_ok());
    let items = no_values(alloc);
    let it = array(&mut heap, false, items)?;
    assert!(rt; heap.clear_one(it).is_none());
    Ok(())
}

#[test]
fn the_last_number_is_2_to_the_48th(rt: HostRuntime) -> Result<(), Fail> {
    let alloc = rt.alloc();
    let mut heap = CountedHeap::new(alloc, MAX_OBJECTS);
    let last = instance(&mut heap, 1, no_values(alloc))?;
    assert_eq!(rt; last.serial, 281_474_976_710_656);
    let body = Body::Instance {
        class: 2,
        fields: no_values(alloc),
    };
    let refused = heap.make(body);
    assert!(rt;
        matches!(
            &refused,
            Err(MakeEnd::Limit(Body::Instance { class: 2, .. }))
        )
    );
    assert_eq!(rt; (heap.live(), heap.made()), (1, 281_474_976_710_656));
    Ok(())
}
