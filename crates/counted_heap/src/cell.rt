//! An object in its slot, and the changes of one.
ghost use Rattle.std.specs.Prelude.{◌≡◌, ◌<◌, ◌↔◌, [], ◌∷◌, ◌++◌, length, List, Some};
ghost use Rattle.std.specs.Prelude.{slice_get, slice_set, IsSomeAnd, IsNone, IfNone, IfSome};
ghost use Rattle.std.specs.Prelude.{OnOk, OnErr, IfErr};
ghost use Rattle.slab.specs.Slab.{get, ContainsKey, with_value};
ghost use Rattle.ck_values.specs.declared.value.Value.{Value};
ghost use Rattle.object_heap.specs.Objects.{IsArray, values_of, with_values};
ghost use Rattle.counted_heap.specs.declared.cell.Cell.{Cell};

use ck_values::Value;
use fixed_point::HandedBack;
use object_heap::Body;
use slab::Slab;

/// An object with its number and its count.
#[derive(Drop)]
pub struct Cell {
    pub serial: u64,
    pub count: u64,
    /// Where the count is 0, the slot of the next chained object.
    pub link: Option<usize>,
    pub body: Body,
}

/// Gives an object another count and link.
pub fn recount(cells: &mut Slab<Cell>, slot: usize, count: u64, link: Option<usize>)
    requires { ContainsKey cells.old slot }
    ensures { (c : Cell) → get cells.old slot ≡ Some c → cells.new ≡
        with_value cells.old slot (record c { count = count; link = link }) }
{
    let cell = cells.get_mut(slot).unwrap();
    cell.count = count;
    cell.link = link;
}

/// Puts a value in the place of a field or an item; the old one is handed back.
pub fn replace(cells: &mut Slab<Cell>, slot: usize, index: usize, v: Value) -> Value
    requires { IsSomeAnd (get cells.old slot) (λ c. index < length (values_of c.body)) }
    ensures set { (c : Cell) → get cells.old slot ≡ Some c → cells.new ≡
        with_value cells.old slot
        (record c { body = with_values c.body (slice_set (values_of c.body) index v) }) }
    ensures old { (c : Cell) → get cells.old slot ≡ Some c →
        slice_get (values_of c.body) index ≡ Some result }
{
    let cell = cells.get_mut(slot).unwrap();
    cell.body.replace(index, v)
}

/// Puts a value at the end of an array, or hands it back for want of memory.
pub fn grow(cells: &mut Slab<Cell>, slot: usize, v: Value) -> Result<(), HandedBack<Value>>
    requires { IsSomeAnd (get cells.old slot) (λ c. IsArray c.body) }
    ensures grown { OnOk result ((c : Cell) → get cells.old slot ≡ Some c → cells.new ≡
        with_value cells.old slot
        (record c { body = with_values c.body (values_of c.body ++ v ∷ []) })) }
    ensures same { OnErr result ((c : Cell) → get cells.old slot ≡ Some c → cells.new ≡
        with_value cells.old slot c) }
    ensures back { IfErr result (λ back. back.value ≡ v) }
{
    let cell = cells.get_mut(slot).unwrap();
    cell.body.grow(v)
}

/// Takes the last item of an array; `None` comes exactly where it has none.
pub fn clear_one(cells: &mut Slab<Cell>, slot: usize) -> Option<Value>
    requires { IsSomeAnd (get cells.old slot) (λ c. IsArray c.body) }
    ensures empty { (c : Cell) → get cells.old slot ≡ Some c →
        IsNone result ↔ (values_of c.body ≡ []) }
    ensures last { IfSome result (λ v. (c : Cell) → get cells.old slot ≡ Some c →
        (rest : List Value) × (values_of c.body ≡ rest ++ v ∷ []) × (cells.new ≡
        with_value cells.old slot (record c { body = with_values c.body rest }))) }
    ensures none { IfNone result ((c : Cell) → get cells.old slot ≡ Some c → cells.new ≡
        with_value cells.old slot c) }
{
    let cell = cells.get_mut(slot).unwrap();
    cell.body.clear_one()
}
