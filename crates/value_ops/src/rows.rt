//! How arrays are made.
ghost use Rattle.std.specs.Prelude.{◌≡◌, replicate, true, false, IsSomeAnd};
ghost use Rattle.std.specs.Prelude.{OnOk, OnErr, IfOk, IfErr};
ghost use Rattle.ck_values.specs.Datum.{meant, all_meant, default_of, AnInt, ARef};
ghost use Rattle.ck_store.specs.Store.{Store, Gives, Fails};
ghost use Rattle.ck_store.specs.Arrays.{size_of, row_made, array_made};
ghost use Rattle.ck_store.specs.Arrays.{sizes_of, grid_made, row_added, rows_added};
ghost use Rattle.object_heap.specs.declared.body.Body.TheVariants.{Array};
ghost use Rattle.object_heap.specs.Objects.{object, IsArray, MakesObject};
ghost use Rattle.value_ops.specs.Ends.{IsGiven, IsEnd, OnTrap, OnWant, IsPartEnd};
ghost use Rattle.value_ops.specs.Heaps.{with_heap, KeepsUnits};

use crate::end::OpEnd;
use ck_base::limits::MAX_ITEMS;
use ck_base::{List, Text};
use ck_values::{Elem, Ref, Trap, Value};
use fixed_point::{Fix, Memory};
use object_heap::{Body, Heap, MakeEnd};
use std::alloc::Global;

/// What an item of this type begins with.
#[inline(always)] // a row has up to a million
fn default_of(alloc: Global, elem: Elem) -> Result<Value, Memory>
    ensures { IfOk result (λ v. meant v ≡ default_of elem) }
{
    const NULL: Ref = Ref { serial: 0, slot: 0 };
    Ok(match elem {
        Elem::Int => Value::Int(0),
        Elem::Float => Value::Float(Fix::from_raw(0)),
        Elem::Dur => Value::Dur(0),
        Elem::Time => Value::Time(0),
        Elem::Text => Value::Text(Text::from_bytes(alloc, &[])?),
        Elem::Shred => Value::Shred(0),
        Elem::Class(_) | Elem::Unit(_) => Value::Ref(NULL),
    })
}

/// So many items, as they begin.
fn defaults(alloc: Global, elem: Elem, n: usize) -> Result<List<Value>, Memory>
    ensures { IfOk result (λ items. all_meant items ≡ replicate n (default_of elem)) }
{
    let mut items = Vec::with_capacity(alloc, n)?;
    for _ in 0..n {
        items.push(default_of(alloc, elem)?)?;
    }
    Ok(List::from_vec(items))
}

/// Makes an array of these items, which are arrays of `elem` if `two`. `ObjectLimit` comes exactly
/// where 2^48 objects were made.
#[tactic(auto, using(crate::proofs::Makes::makes))]
pub fn array(heap: &mut Heap, elem: Elem, two: bool, items: List<Value>) -> Result<Ref, OpEnd>
    requires first { heap.old.first ≡ 1 }
    ensures object { IfOk result (λ at.
        MakesObject heap.old (Array elem two items) at heap.new) }
    ensures made { (store : Store) → IfOk result (λ at.
        array_made elem two (all_meant items) (with_heap store heap.old)
        ≡ Gives (record { reference = ARef at.serial; store = with_heap store heap.new })) }
    ensures end { (store : Store) → IfErr result (λ end.
        IsEnd true end (array_made elem two (all_meant items) (with_heap store heap.old))) }
    ensures same { OnErr result (heap.new ≡ heap.old) }
    ensures first { heap.new.first ≡ heap.old.first }
    ensures units { KeepsUnits heap.old heap.new }
{
    match heap.make(Body::Array { elem, two, items }) {
        Ok(at) => Ok(at),
        Err(MakeEnd::Limit(_)) => Err(OpEnd::Trap(Trap::ObjectLimit)),
        Err(MakeEnd::Memory(back)) => Err(OpEnd::Memory(back.memory)),
    }
}

/// Makes an array of `n` items, as they begin. `ArrayLimit` comes exactly where `n` is below 0 or
/// above 1,048,576, and `ObjectLimit` exactly where it is not, and 2^48 objects were made.
#[tactic(auto, using(crate::proofs::Makes::makes))]
pub fn row(alloc: Global, heap: &mut Heap, elem: Elem, n: i64) -> Result<Ref, OpEnd>
    requires first { heap.old.first ≡ 1 }
    ensures made { (store : Store) → IfOk result (λ at.
        row_made elem (AnInt n) (with_heap store heap.old)
        ≡ Gives (record { reference = ARef at.serial; store = with_heap store heap.new })) }
    ensures end { (store : Store) → IfErr result (λ end.
        IsEnd true end (row_made elem (AnInt n) (with_heap store heap.old))) }
    ensures same { OnErr result (heap.new ≡ heap.old) }
    ensures first { heap.new.first ≡ heap.old.first }
    ensures units { KeepsUnits heap.old heap.new }
{
    let n = size_of(n)?;
    if heap.is_full() {
        return Err(OpEnd::Trap(Trap::ObjectLimit));
    }
    let items = defaults(alloc, elem, n)?;
    array(heap, elem, false, items)
}

/// The size of an array.
fn size_of(n: i64) -> Result<usize, OpEnd>
    ensures size { IfOk result (λ k. size_of (AnInt n) ≡ Gives k) }
    ensures end { IfErr result (λ end. IsEnd false end (size_of (AnInt n))) }
{
    if n < 0 || n > MAX_ITEMS {
        return Err(OpEnd::Trap(Trap::ArrayLimit));
    }
    Ok(n as usize)
}

/// The sizes of an array of arrays.
fn sizes(n: i64, m: i64) -> Result<(usize, usize), OpEnd>
    ensures sizes { IfOk result (λ s.
        sizes_of (AnInt n) (AnInt m) ≡ Gives (record { rows = s.0; columns = s.1 })) }
    ensures end { IfErr result (λ end. IsEnd false end (sizes_of (AnInt n) (AnInt m))) }
{
    if n < 0 || m < 0 || n > MAX_ITEMS {
        return Err(OpEnd::Trap(Trap::ArrayLimit));
    }
    let (rows, columns) = (n as usize, m as usize);
    if rows.saturating_mul(columns) > MAX_ITEMS as usize {
        return Err(OpEnd::Trap(Trap::ArrayLimit));
    }
    Ok((rows, columns))
}

/// Makes an array of `n` arrays of `m` items, as they begin; the rows are made one after another.
/// `ArrayLimit` comes exactly where `n` or `m` is below 0, or `n` or their product is above
/// 1,048,576, and `Memory` only where they aren't. `ObjectLimit` comes where an object was wanted
/// after 2^48; the rows that were made before it stay.
#[tactic(auto, using(crate::proofs::Makes::makes))]
pub fn grid(alloc: Global, heap: &mut Heap, elem: Elem, n: i64, m: i64) -> Result<Ref, OpEnd>
    requires first { heap.old.first ≡ 1 }
    ensures made { (store : Store) → IfOk result (λ at.
        grid_made elem (AnInt n) (AnInt m) (with_heap store heap.old)
        ≡ record { store = with_heap store heap.new; end = Gives (ARef at.serial) }) }
    ensures end { (store : Store) → IfErr result (λ end.
        IsPartEnd end (grid_made elem (AnInt n) (AnInt m) (with_heap store heap.old))
        (with_heap store heap.new)) }
    ensures sizes { IfErr result (λ end. OnWant end (IsGiven (sizes_of (AnInt n) (AnInt m)))) }
    ensures first { heap.new.first ≡ heap.old.first }
    ensures units { KeepsUnits heap.old heap.new }
{
    let (rows, columns) = sizes(n, m)?;
    let items = List::from_vec(Vec::with_capacity(alloc, rows)?);
    let at = array(heap, elem, true, items)?;
    add_rows(alloc, heap, elem, rows, columns, at)?;
    Ok(at)
}

/// Puts so many rows more at the end of an array of arrays.
#[tactic(auto, using(crate::proofs::Makes::makes))]
fn add_rows(
    alloc: Global,
    heap: &mut Heap,
    elem: Elem,
    rows: usize,
    columns: usize,
    grid: Ref,
) -> Result<(), OpEnd>
    requires first { heap.old.first ≡ 1 }
    requires array { IsSomeAnd (object heap.old grid) IsArray }
    ensures added { (store : Store) → OnOk result
        (rows_added rows elem columns (ARef grid.serial) (with_heap store heap.old)
        ≡ record { store = with_heap store heap.new; end = Gives (ARef grid.serial) }) }
    ensures end { (store : Store) → IfErr result (λ end.
        IsPartEnd end (rows_added rows elem columns (ARef grid.serial) (with_heap store heap.old))
        (with_heap store heap.new)) }
    ensures first { heap.new.first ≡ heap.old.first }
    ensures units { KeepsUnits heap.old heap.new }
{
    for _ in 0..rows {
        add_row(alloc, heap, elem, columns, grid)?;
    }
    Ok(())
}

/// Makes one row more, and puts it at the end of an array of arrays.
#[tactic(auto, using(crate::proofs::Makes::makes))]
fn add_row(
    alloc: Global,
    heap: &mut Heap,
    elem: Elem,
    columns: usize,
    grid: Ref,
) -> Result<(), OpEnd>
    requires first { heap.old.first ≡ 1 }
    requires array { IsSomeAnd (object heap.old grid) IsArray }
    ensures added { (store : Store) → OnOk result
        (row_added elem columns (ARef grid.serial) (with_heap store heap.old)
        ≡ Gives (with_heap store heap.new)) }
    ensures end { (store : Store) → IfErr result (λ end. OnTrap end (λ trap.
        row_added elem columns (ARef grid.serial) (with_heap store heap.old) ≡ Fails trap)) }
    ensures same { IfErr result (λ end. OnTrap end (λ trap. heap.new ≡ heap.old)) }
    ensures array { OnOk result (IsSomeAnd (object heap.new grid) IsArray) }
    ensures first { heap.new.first ≡ heap.old.first }
    ensures units { KeepsUnits heap.old heap.new }
{
    let items = defaults(alloc, elem, columns)?;
    let row = array(heap, elem, false, items)?;
    match heap.grow(grid, Value::Ref(row)) {
        Ok(()) => Ok(()),
        Err(back) => Err(OpEnd::Memory(back.memory)),
    }
}
