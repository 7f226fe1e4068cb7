ghost use Rattle.std.specs.Prelude.{◌≡◌, suc, pred, ◌<◌, ◌≤◌, ◌^◌, pos, ◌+ℤ◌, ◌≤ℤ◌, ◌<ℤ◌};
ghost use Rattle.std.specs.Prelude.{[], ◌∷◌, ◌++◌, length, map, true, IfOk, IfErr, OnOk, OnErr};
ghost use Rattle.fixed_point.specs.Fix.{sample_of};
ghost use Rattle.ugen_sample.specs.Sample.{dac, last_of};
ghost use Rattle.ck_store.specs.Graph.{sounded};
ghost use Rattle.ck_store.specs.Store.{first_store, first_objects, Gives, Fails};
ghost use Rattle.ck_store.specs.Objects.{object_made, referred, field_of, with_field, method_of};
ghost use Rattle.ck_store.specs.Arrays.{item_of, with_item, appended, item_count, cleared};
ghost use Rattle.ck_store.specs.Arrays.{has_item, filled, row_made, sizes_of, grid_made, array_made};
ghost use Rattle.value_ops.specs.Heaps.{shown_body, KeepsUnits};
ghost use Rattle.value_ops.specs.Ends.{IsGiven, OnTrap, OnWant};
ghost use Rattle.object_heap.specs.Objects.{MakesObject, next};
ghost use Rattle.ck_base.specs.declared.limits.TheConstants.{MAX_FILES, MAX_OBJECTS, MAX_SAMPLES};
ghost use Rattle.ck_base.specs.declared.limits.TheConstants.{MAX_SPORKS};
ghost use Rattle.ck_values.specs.declared.trap.Trap.TheVariants.{SporkLimit, ObjectLimit};
ghost use Rattle.ck_store.specs.Steps.{static_of, with_static, ticked};
ghost use Rattle.ck_code.specs.Fitting.{IsFitStore};
ghost use Rattle.machine_world.specs.Tries.{CanDo, Answers, Refuses, Ends, Does, DoesPartly};
ghost use Rattle.machine_world.specs.Tries.{Becomes, Reads};
ghost use Rattle.machine_world.specs.Worlds.{counted, StandsFor};
ghost use Rattle.ck_values.specs.Datum.{meant, all_meant, first_value, AnInt, ARef};

use crate::readers::int;
use ck_base::List;
use ck_base::limits::MAX_SPORKS;
use ck_code::{Code, CodeParts};
use ck_typed::Class;
use ck_values::{Elem, Kind, Ref, Trap, Value};
use fixed_point::Memory;
use object_heap::{Body, Heap, MakeEnd};
use rand_pcg::Lcg64Xsh32;
use shared_list::SharedList;
use shred_state::add_first_values;
use std::alloc::Global;
use std::marker::Model;
use ugen_graph::Graph;
use value_ops::{OpEnd, append, array, clear, fill, grid, has_item, item, row, set_item, size};

/// What all shreds work on: the time in samples, the objects, the statics, the unit generators and
/// their connections, the generator of random words, the numbers of shreds, and the count of the
/// instructions that were begun.
///
/// Contracts see them as they are, and speak of each store that they stand for. In every world the
/// object at each end of a connection is the unit generator at the end's node.
#[derive(Drop)]
pub struct World {
    time: i64,
    pub(crate) heap: Heap,
    statics: List<Value>,
    pub(crate) graph: Graph,
    pub(crate) words: Lcg64Xsh32,
    /// How many shreds were sporked at this sample, at most `MAX_SPORKS`.
    sporks: u32,
    /// The number of the shred that will be sporked next.
    next_shred: u64,
    ran: u64,
}

impl Model for World {
    ghost use Rattle.std.specs.Prelude.{◌≡◌, ◌<◌, ◌^◌, IsTrue};
    ghost use Rattle.machine_world.specs.Units.{are_taken, AreJoined};
    ghost use Rattle.machine_world.specs.Worlds.{Parts, HasNumbers};

    ghost Value = { Parts };

    ghost view = { λ w. record {
      time = w.time;
      heap = w.heap;
      statics = w.statics;
      graph = w.graph;
      words = w.words;
      sporks = w.sporks;
      next_shred = w.next_shred;
      ran = w.ran;
    } };

    ghost invariant = { λ w. (w.ran < 2 ^ 64) × (w.heap.first ≡ 1)
        × HasNumbers w.time w.sporks w.next_shred × IsTrue (are_taken w.graph.units)
        × AreJoined w.heap w.graph.links };
}

impl World {
    /// The world at the start of a run of this code.
    #[tactic(auto, using(crate::proofs::Kept::kept))]
    pub fn new(alloc: Global, code: &Code) -> Result<World, Memory>
        ensures store { IfOk result (λ world.
            StandsFor world (first_store (length code.now.mains) code.now.statics)) }
        ensures ran { IfOk result (λ world. world.ran ≡ 0) }
        ensures fits { OnOk result (length code.now.mains ≤ MAX_FILES →
            IsFitStore code.now (first_store (length code.now.mains) code.now.statics)) }
    {
        let parts = code.parts();
        let heap = first_heap(alloc)?;
        let mut statics = Vec::new(alloc);
        add_first_values(alloc, &mut statics, parts.statics.items())?;
        let graph = Graph::new(alloc)?;
        Ok(World {
            time: 0,
            heap,
            statics: List::from_vec(statics),
            graph,
            words: Lcg64Xsh32::new(42, 54),
            sporks: 0,
            next_shred: parts.mains.items().len() as u64 + 1,
            ran: 0,
        })
    }

    /// How many instructions were begun.
    pub fn ran(&self) -> u64
        ensures { result ≡ self.now.ran }
    {
        self.ran
    }

    /// How many numbers shreds were given.
    #[tactic(auto, unfolding(crate::specs::Worlds::store_of))]
    pub fn shreds(&self) -> u64
        ensures { Reads self.now (λ store. pred store.next_shred) result }
    {
        self.next_shred.saturating_sub(1)
    }

    /// How many objects were made, `dac` and `blackhole` with them.
    #[tactic(auto, unfolding(crate::specs::Worlds::store_of))]
    pub fn made(&self) -> u64
        ensures { Reads self.now (λ store. length store.objects) result }
    {
        self.heap.made()
    }

    /// The time in samples. The count has 64 bits.
    #[tactic(auto, unfolding(crate::specs::Worlds::store_of))]
    pub fn now(&self) -> i64
        ensures now { result ≡ self.now.time }
        ensures store { Reads self.now (λ store. store.now) result }
        ensures count { self.now.ran < 2 ^ 64 }
    {
        self.time
    }

    /// The next sample, of which the left side is heard as long as no connection has a side: each
    /// unit generator that is reached makes its output, and time goes on by one sample, at which no
    /// shred was sporked yet.
    #[tactic(auto, unfolding(crate::specs::Worlds::store_of))]
    pub fn sample(&mut self) -> i16
        requires { self.old.time <ℤ pos MAX_SAMPLES }
        ensures value { Reads self.old
            (λ store. sample_of (last_of (sounded store).units dac).left) result }
        ensures time { self.new.time ≡ self.old.time +ℤ pos 1 }
        ensures store { Becomes self.old (λ store. ticked (sounded store)) self.new }
        ensures ran { self.new.ran ≡ self.old.ran }
    {
        let (left, _right) = self.graph.tick();
        self.time += 1;
        self.sporks = 0;
        left.to_i16()
    }

    /// Time goes on to this one.
    #[tactic(auto, unfolding(crate::specs::Worlds::store_of))]
    pub fn go_to(&mut self, time: i64)
        requires later { self.old.time ≤ℤ time }
        requires within { time ≤ℤ pos MAX_SAMPLES }
        ensures time { self.new ≡ record self.old { time = time } }
        ensures store { Becomes self.old (λ store. record store { now = time }) self.new }
    {
        self.time = time;
    }

    /// The static with this number.
    #[tactic(auto, using(crate::proofs::Numbered::statics_read), unfolding(crate::specs::Worlds::store_of))]
    pub fn static_at(&self, i: u32) -> &Value
        requires { CanDo self.now (λ store. static_of store i) }
        ensures { Answers self.now (λ store. static_of store i) (meant result.now) }
    {
        &self.statics.items()[i as usize]
    }

    /// Puts a value in the place of a static, which is handed back.
    #[tactic(auto, using(crate::proofs::Numbered::statics), unfolding(crate::specs::Worlds::store_of))]
    pub fn set_static(&mut self, i: u32, v: Value) -> Value
        requires { CanDo self.old (λ store. with_static store i (meant v)) }
        ensures set { Does self.old (λ store. with_static store i (meant v)) (λ after. after)
            self.new }
        ensures ran { self.new.ran ≡ self.old.ran }
        ensures old { Answers self.old (λ store. static_of store i) (meant result) }
    {
        self.statics.replace(i as usize, v)
    }

    /// Makes an object of a class, whose fields begin with their first values; `Trap` comes exactly
    /// where as many objects were made as may be.
    #[tactic(auto, using(crate::proofs::Joined::joined_kept))]
    pub fn make(&mut self, alloc: Global, code: &CodeParts, class: u32) -> Result<Ref, OpEnd>
        requires { CanDo self.old (object_made code.now.classes class) }
        ensures made { IfOk result (λ at. Does self.old (object_made code.now.classes class)
            (λ after. record { reference = ARef at.serial; store = after }) self.new) }
        ensures end { IfErr result (Ends self.old (object_made code.now.classes class)) }
        ensures same { OnErr result (self.new ≡ self.old) }
        ensures ran { self.new.ran ≡ self.old.ran }
    {
        if self.heap.is_full() {
            return Err(OpEnd::Trap(Trap::ObjectLimit));
        }
        let fields = first_fields(alloc, &code.classes.items()[class as usize])?;
        add_object(&mut self.heap, Body::Instance { class, fields })
    }

    // The class and the fields of the object that a reference refers to; null is a trap.
    fn instance(&self, at: Ref) -> Result<(u32, &[Value]), Trap>
        requires { CanDo self.now (λ store. referred store.objects (ARef at.serial)) }
        ensures found { IfOk result (λ o.
            Answers self.now (λ store. referred store.objects (ARef at.serial))
            (record { class = o.0; fields = all_meant o.1.now })) }
        ensures null { IfErr result
            (Refuses self.now (λ store. referred store.objects (ARef at.serial))) }
    {
        if at.serial == 0 {
            return Err(Trap::NullPointer);
        }
        match self.heap.body(at) {
            Body::Instance { class, fields } => Ok((*class, fields.items())),
            _ => unreachable!(),
        }
    }

    /// A field of an object; null is a trap.
    #[tactic(auto, using(crate::proofs::Parts::parts))]
    pub fn field(&self, at: Ref, i: u32) -> Result<&Value, Trap>
        requires { CanDo self.now (λ store. field_of store (ARef at.serial) i) }
        ensures found { IfOk result (λ v.
            Answers self.now (λ store. field_of store (ARef at.serial) i) (meant v.now)) }
        ensures null { IfErr result
            (Refuses self.now (λ store. field_of store (ARef at.serial) i)) }
    {
        let (_, fields) = self.instance(at)?;
        Ok(&fields[i as usize])
    }

    /// Puts a value in the place of a field of an object, which is handed back; null is a trap, and
    /// the value is let go.
    #[tactic(auto, using(crate::proofs::Parts::parts))]
    pub fn set_field(&mut self, at: Ref, i: u32, v: Value) -> Result<Value, Trap>
        requires { CanDo self.old (λ store. with_field store (ARef at.serial) i (meant v)) }
        ensures set { OnOk result (Does self.old
            (λ store. with_field store (ARef at.serial) i (meant v)) (λ after. after) self.new) }
        ensures null { IfErr result (Refuses self.old
            (λ store. with_field store (ARef at.serial) i (meant v))) }
        ensures same { OnErr result (self.new ≡ self.old) }
        ensures ran { self.new.ran ≡ self.old.ran }
    {
        if at.serial == 0 {
            return Err(Trap::NullPointer);
        }
        Ok(self.heap.set(at, i as usize, v))
    }

    /// An item of an array; null is a trap, and so is an index that isn't there.
    #[tactic(auto, unfolding(crate::specs::Worlds::store_of))]
    pub fn item(&self, at: Ref, index: &Value) -> Result<&Value, Trap>
        requires { CanDo self.now
            (λ store. item_of store.objects (ARef at.serial) (meant index.now)) }
        ensures found { IfOk result (λ v. Answers self.now
            (λ store. item_of store.objects (ARef at.serial) (meant index.now)) (meant v.now)) }
        ensures trap { IfErr result (Refuses self.now
            (λ store. item_of store.objects (ARef at.serial) (meant index.now))) }
    {
        if at.serial == 0 {
            return Err(Trap::NullPointer);
        }
        item(&self.heap, at, int(index))
    }

    /// Puts a value in the place of an item of an array, which is handed back; null is a trap, and
    /// so is an index that isn't there: the value is let go then.
    #[tactic(auto, using(crate::proofs::Joined::joined_kept))]
    pub fn set_item(&mut self, at: Ref, index: &Value, v: Value) -> Result<Value, Trap>
        requires { CanDo self.old
            (λ store. with_item store (ARef at.serial) (meant index.now) (meant v)) }
        ensures set { OnOk result (Does self.old
            (λ store. with_item store (ARef at.serial) (meant index.now) (meant v))
            (λ after. after) self.new) }
        ensures trap { IfErr result (Refuses self.old
            (λ store. with_item store (ARef at.serial) (meant index.now) (meant v))) }
        ensures same { OnErr result (self.new ≡ self.old) }
        ensures ran { self.new.ran ≡ self.old.ran }
    {
        if at.serial == 0 {
            return Err(Trap::NullPointer);
        }
        match set_item(&mut self.heap, at, int(index), v) {
            Ok(old) => Ok(old),
            Err((trap, _)) => Err(trap),
        }
    }

    /// The number of items of an array; null is a trap.
    #[tactic(auto, unfolding(crate::specs::Worlds::store_of))]
    pub fn size(&self, at: Ref) -> Result<i64, Trap>
        requires { CanDo self.now (λ store. item_count store.objects (ARef at.serial)) }
        ensures found { IfOk result (λ n.
            Answers self.now (λ store. item_count store.objects (ARef at.serial)) (AnInt n)) }
        ensures null { IfErr result
            (Refuses self.now (λ store. item_count store.objects (ARef at.serial))) }
    {
        size(&self.heap, at)
    }

    /// Whether an array has an item with this index; null is a trap.
    #[tactic(auto, unfolding(crate::specs::Worlds::store_of))]
    pub fn has_item(&self, at: Ref, index: &Value) -> Result<bool, Trap>
        requires { CanDo self.now
            (λ store. has_item store.objects (ARef at.serial) (meant index.now)) }
        ensures found { IfOk result (Answers self.now
            (λ store. has_item store.objects (ARef at.serial) (meant index.now))) }
        ensures null { IfErr result (Refuses self.now
            (λ store. has_item store.objects (ARef at.serial) (meant index.now))) }
    {
        if at.serial == 0 {
            return Err(Trap::NullPointer);
        }
        has_item(&self.heap, at, int(index))
    }

    /// Puts a value at the end of an array; null is a trap, and so is an array that is full.
    #[tactic(auto, using(crate::proofs::Joined::joined_kept))]
    pub fn append(&mut self, at: Ref, v: Value) -> Result<(), OpEnd>
        requires { CanDo self.old (λ store. appended store (ARef at.serial) (meant v)) }
        ensures grown { OnOk result (Does self.old
            (λ store. appended store (ARef at.serial) (meant v)) (λ after. after) self.new) }
        ensures end { IfErr result
            (Ends self.old (λ store. appended store (ARef at.serial) (meant v))) }
        ensures same { OnErr result (self.new ≡ self.old) }
        ensures ran { self.new.ran ≡ self.old.ran }
    {
        if let Err((end, _)) = append(&mut self.heap, at, v) {
            return Err(end);
        }
        Ok(())
    }

    /// Takes all items out of an array; null is a trap.
    #[tactic(auto, using(crate::proofs::Joined::joined_kept))]
    pub fn clear(&mut self, at: Ref) -> Result<(), Trap>
        requires { CanDo self.old (λ store. cleared store (ARef at.serial)) }
        ensures cleared { OnOk result (Does self.old
            (λ store. cleared store (ARef at.serial)) (λ after. after) self.new) }
        ensures null { IfErr result
            (Refuses self.old (λ store. cleared store (ARef at.serial))) }
        ensures same { OnErr result (self.new ≡ self.old) }
        ensures ran { self.new.ran ≡ self.old.ran }
    {
        clear(&mut self.heap, at)
    }

    /// Stores a value in an item of an array, where the array has it, and gives the next index;
    /// null is a trap.
    #[tactic(auto, using(crate::proofs::Joined::joined_kept))]
    pub fn fill(&mut self, at: Ref, index: &Value, v: Value) -> Result<i64, Trap>
        requires { CanDo self.old
            (λ store. filled store (ARef at.serial) (meant index.now) (meant v)) }
        ensures filled { IfOk result (λ next. Does self.old
            (λ store. filled store (ARef at.serial) (meant index.now) (meant v))
            (λ after. record { next = AnInt next; store = after }) self.new) }
        ensures null { IfErr result (Refuses self.old
            (λ store. filled store (ARef at.serial) (meant index.now) (meant v))) }
        ensures same { OnErr result (self.new ≡ self.old) }
        ensures ran { self.new.ran ≡ self.old.ran }
    {
        if at.serial == 0 {
            return Err(Trap::NullPointer);
        }
        let index = int(index);
        match fill(&mut self.heap, at, index, v) {
            Ok(_old) => Ok(index.wrapping_add(1)),
            Err((trap, _)) => Err(trap),
        }
    }

    /// Makes an array of so many first values; a size that may not be is a trap, and so is an
    /// object after all that may be made.
    #[tactic(auto, using(crate::proofs::Joined::joined_kept))]
    pub fn make_row(&mut self, alloc: Global, elem: Elem, n: i64) -> Result<Ref, OpEnd>
        ensures made { IfOk result (λ at. Does self.old (row_made elem (AnInt n))
            (λ after. record { reference = ARef at.serial; store = after }) self.new) }
        ensures end { IfErr result (Ends self.old (row_made elem (AnInt n))) }
        ensures same { OnErr result (self.new ≡ self.old) }
        ensures ran { self.new.ran ≡ self.old.ran }
    {
        row(alloc, &mut self.heap, elem, n)
    }

    /// Makes an array of arrays of first values; a trap leaves what was made before it.
    #[tactic(auto, using(crate::proofs::Joined::joined_kept))]
    pub fn make_grid(&mut self, alloc: Global, elem: Elem, n: i64, m: i64) -> Result<Ref, OpEnd>
        ensures made { IfOk result (λ at. DoesPartly self.old
            (grid_made elem (AnInt n) (AnInt m)) (Gives (ARef at.serial)) self.new) }
        ensures end { IfErr result (λ end. OnTrap end (λ trap. DoesPartly self.old
            (grid_made elem (AnInt n) (AnInt m)) (Fails trap) self.new)) }
        ensures sizes { IfErr result (λ end.
            OnWant end (IsGiven (sizes_of (AnInt n) (AnInt m)))) }
        ensures ran { self.new.ran ≡ self.old.ran }
    {
        grid(alloc, &mut self.heap, elem, n, m)
    }

    /// Makes an array of these items, or of arrays; an object after all that may be made is a trap.
    #[tactic(auto, using(crate::proofs::Joined::joined_kept))]
    pub fn make_array(&mut self, elem: Elem, two: bool, items: List<Value>) -> Result<Ref, OpEnd>
        ensures made { IfOk result (λ at. Does self.old (array_made elem two (all_meant items))
            (λ after. record { reference = ARef at.serial; store = after }) self.new) }
        ensures end { IfErr result (Ends self.old (array_made elem two (all_meant items))) }
        ensures same { OnErr result (self.new ≡ self.old) }
        ensures ran { self.new.ran ≡ self.old.ran }
    {
        array(&mut self.heap, elem, two, items)
    }

    /// The function in a slot of an object; null is a trap.
    #[tactic(auto, using(crate::proofs::Parts::parts))]
    pub fn method(&self, code: &CodeParts, at: Ref, slot: u32) -> Result<u32, Trap>
        requires { CanDo self.now
            (λ store. method_of code.now.classes store.objects (ARef at.serial) slot) }
        ensures found { IfOk result (Answers self.now
            (λ store. method_of code.now.classes store.objects (ARef at.serial) slot)) }
        ensures null { IfErr result (Refuses self.now
            (λ store. method_of code.now.classes store.objects (ARef at.serial) slot)) }
    {
        let (class, _) = self.instance(at)?;
        let virtuals = &code.classes.items()[class as usize].virtuals;
        Ok(*virtuals.item(slot as usize))
    }

    /// The number of a shred that is sporked now; it is a trap where as many were sporked at this
    /// sample as may be.
    pub fn spork(&mut self) -> Result<u64, Trap>
        ensures number { IfOk result (λ number. number ≡ self.old.next_shred) }
        ensures room { OnOk result (self.old.sporks < MAX_SPORKS) }
        ensures new { OnOk result (self.new ≡ record self.old {
          sporks = suc self.old.sporks;
          next_shred = suc self.old.next_shred;
        }) }
        ensures limit { IfErr result (λ trap. trap ≡ SporkLimit) }
        ensures full { OnErr result (MAX_SPORKS ≤ self.old.sporks) }
        ensures same { OnErr result (self.new ≡ self.old) }
    {
        if self.sporks >= MAX_SPORKS {
            return Err(Trap::SporkLimit);
        }
        let number = self.next_shred;
        self.sporks += 1;
        self.next_shred += 1;
        Ok(number)
    }

    /// So many more instructions were begun. The count stays at the greatest number of 64 bits.
    #[tactic(auto, unfolding(crate::specs::Worlds::store_of))]
    pub fn count(&mut self, begun: u64)
        ensures ran { self.new ≡ record self.old { ran = counted self.old.ran begun } }
        ensures store { Becomes self.old (λ store. store) self.new }
    {
        self.ran = self.ran.saturating_add(begun);
    }
}

/// Adds an object with this body, which is let go where none is added.
#[tactic(auto, using(crate::proofs::Joined::keeps))]
pub(crate) fn add_object(heap: &mut Heap, body: Body) -> Result<Ref, OpEnd>
    ensures made { IfOk result (λ at. MakesObject heap.old body at heap.new) }
    ensures limit { IfErr result (λ end.
        OnTrap end (λ trap. (trap ≡ ObjectLimit) × (MAX_OBJECTS < next heap.old))) }
    ensures room { IfErr result (λ end. OnWant end (next heap.old ≤ MAX_OBJECTS)) }
    ensures same { OnErr result (heap.new ≡ heap.old) }
    ensures units { KeepsUnits heap.old heap.new }
{
    match heap.make(body) {
        Ok(at) => Ok(at),
        Err(MakeEnd::Limit(_)) => Err(OpEnd::Trap(Trap::ObjectLimit)),
        Err(MakeEnd::Memory(back)) => Err(OpEnd::Memory(back.memory)),
    }
}

// No value, and room for the first of these fields: mostly they are all.
fn room_for(alloc: Global, kinds: &SharedList<Kind>) -> Result<Vec<Value>, Memory>
    ensures { IfOk result (λ fields. fields.items ≡ []) }
{
    if kinds.chunk_count() == 0 {
        return Ok(Vec::new(alloc));
    }
    Ok(Vec::with_capacity(alloc, kinds.chunk(0).len())?)
}

// What the fields of an object of this class begin with.
#[tactic(auto, using(crate::proofs::Kept::kept))]
fn first_fields(alloc: Global, class: &Class) -> Result<List<Value>, Memory>
    ensures { IfOk result (λ fields. all_meant fields ≡ map first_value class.now.fields) }
{
    let kinds = &class.fields;
    let mut fields = room_for(alloc, kinds)?;
    for i in 0..kinds.chunk_count() {
        add_first_values(alloc, &mut fields, kinds.chunk(i))?;
    }
    Ok(List::from_vec(fields))
}

// The objects of every run: the output, and what pulls without being heard.
fn first_heap(alloc: Global) -> Result<Heap, Memory>
    ensures first { IfOk result (λ heap. heap.first ≡ 1) }
    ensures objects { IfOk result (λ heap. map shown_body heap.bodies ≡ first_objects) }
{
    let mut heap = Heap::new(alloc, 1);
    add_first(&mut heap, Body::Ugen { node: 0 })?;
    add_first(&mut heap, Body::Ugen { node: 1 })?;
    Ok(heap)
}

// Adds an object with this body, where there is a number left for it.
fn add_first(heap: &mut Heap, body: Body) -> Result<(), Memory>
    requires { next heap.old ≤ MAX_OBJECTS }
    ensures { OnOk result
        (heap.new ≡ record heap.old { bodies = heap.old.bodies ++ body ∷ [] }) }
{
    match heap.make(body) {
        Ok(_) => Ok(()),
        Err(MakeEnd::Limit(_)) => unreachable!(),
        Err(MakeEnd::Memory(back)) => Err(back.memory),
    }
}
