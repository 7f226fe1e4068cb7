ghost use Rattle.std.specs.Prelude.{◌≡◌, ◌<◌, ◌≤◌, ◌+◌, ◌-◌, ◌^◌, ◌↔◌, [], ◌∷◌, ◌++◌, length, Some};
ghost use Rattle.std.specs.Prelude.{IfOk, OnOk, OnErr, IfErr, IsSome, IfSome, IsSomeAnd, IsTrue};
ghost use Rattle.std.specs.Prelude.{List, IsNone, IfNone, slice_get, slice_set};
ghost use Rattle.ck_values.specs.declared.value.Value.{Value};
ghost use Rattle.ck_base.specs.declared.limits.TheConstants.{MAX_OBJECTS};
ghost use Rattle.object_heap.specs.Objects.{next, object, MakesObject, MakesNone};
ghost use Rattle.object_heap.specs.Objects.{IsArray, values_of, with_body, with_values};

use crate::body::Body;
use ck_base::limits::MAX_OBJECTS;
use ck_values::{Ref, Value};
use fixed_point::HandedBack;
use std::alloc::Global;
use std::marker::Model;

/// Why an object can't be made. The body is handed back.
#[derive(Drop)]
pub enum MakeEnd {
    /// As many objects were made as may be.
    Limit(Body),
    /// There is not enough memory.
    Memory(HandedBack<Body>),
}

/// Objects by their numbers.
///
/// Contracts see the bodies in order of the numbers, and the first number.
#[derive(Drop)]
pub struct Heap {
    bodies: Vec<Body>,
    first: u64,
}

impl Model for Heap {
    ghost use Rattle.std.specs.Prelude.{◌≤◌, ◌+◌, length};
    ghost use Rattle.ck_base.specs.declared.limits.TheConstants.{MAX_OBJECTS};
    ghost use Rattle.object_heap.specs.Objects.{Objects};

    ghost Value = { Objects };

    ghost view = { λ h. record { first = h.first; bodies = h.bodies.items } };

    ghost invariant = { λ h. h.first + length h.bodies.items ≤ MAX_OBJECTS + 1 };
}

impl Heap {
    /// No objects; the first one will have this number, which is 1 to 2^48.
    pub fn new(alloc: Global, first: u64) -> Heap
        requires { first ≤ MAX_OBJECTS }
        ensures { result ≡ record { first = first; bodies = [] } }
    {
        Heap {
            bodies: Vec::new(alloc),
            first,
        }
    }

    /// Makes an object, which has the next number. `Limit` comes exactly where that is above 2^48.
    pub fn make(&mut self, body: Body) -> Result<Ref, MakeEnd>
        ensures made { IfOk result (λ at. MakesObject self.old body at self.new) }
        ensures refused { IfErr result (λ end. MakesNone end self.old body) }
        ensures same { OnErr result (self.new ≡ self.old) }
    {
        let slot = self.bodies.len();
        let serial = self.first + slot as u64;
        if serial > MAX_OBJECTS {
            return Err(MakeEnd::Limit(body));
        }
        match self.bodies.push(body) {
            Ok(()) => Ok(Ref { serial, slot }),
            Err(failed) => Err(MakeEnd::Memory(HandedBack::from(failed))),
        }
    }

    // Where the body of an object is.
    fn slot_of(&self, at: Ref) -> usize
        requires { IsSome (object self.now at) }
        ensures within { result < length self.now.bodies }
        ensures slot { result ≡ at.serial - self.now.first }
        ensures found { object self.now at ≡ slice_get self.now.bodies result }
    {
        (at.serial - self.first) as usize
    }

    /// The body of an object that was made.
    pub fn body(&self, at: Ref) -> &Body
        requires { IsSome (object self.now at) }
        ensures { object self.now at ≡ Some result.now }
    {
        let slot = self.slot_of(at);
        &self.bodies[slot]
    }

    /// Puts a value in the place of a field or an item of an object, by its index; the old one is
    /// handed back.
    pub fn set(&mut self, at: Ref, index: usize, v: Value) -> Value
        requires { IsSomeAnd (object self.old at) (λ body. index < length (values_of body)) }
        ensures set { IfSome (object self.old at) (λ body. self.new ≡
            with_body self.old at (with_values body (slice_set (values_of body) index v))) }
        ensures old { IfSome (object self.old at) (λ body.
            slice_get (values_of body) index ≡ Some result) }
    {
        let slot = self.slot_of(at);
        self.bodies[slot].replace(index, v)
    }

    /// Puts a value at the end of an array; it is handed back for want of memory, and nothing has
    /// changed then.
    pub fn grow(&mut self, at: Ref, v: Value) -> Result<(), HandedBack<Value>>
        requires { IsSomeAnd (object self.old at) IsArray }
        ensures grown { OnOk result (IfSome (object self.old at) (λ body. self.new ≡
            with_body self.old at (with_values body (values_of body ++ v ∷ [])))) }
        ensures same { OnErr result (self.new ≡ self.old) }
        ensures back { IfErr result (λ back. back.value ≡ v) }
    {
        let slot = self.slot_of(at);
        self.bodies[slot].grow(v)
    }

    /// Takes the last item of an array; `None` comes exactly where it has none. It takes no memory.
    pub fn clear_one(&mut self, at: Ref) -> Option<Value>
        requires { IsSomeAnd (object self.old at) IsArray }
        ensures empty { IsNone result ↔ IfSome (object self.old at) (λ body. values_of body ≡ []) }
        ensures last { IfSome result (λ v. IfSome (object self.old at) (λ body. (rest : List Value)
            × (values_of body ≡ rest ++ v ∷ [])
            × (self.new ≡ with_body self.old at (with_values body rest)))) }
        ensures none { IfNone result (self.new ≡ self.old) }
    {
        let slot = self.slot_of(at);
        self.bodies[slot].clear_one()
    }

    /// Whether as many objects were made as may be.
    pub fn is_full(&self) -> bool
        ensures { IsTrue result ↔ (MAX_OBJECTS < next self.now) }
    {
        self.first + self.bodies.len() as u64 > MAX_OBJECTS
    }

    /// How many objects have numbers: the next object's number less one.
    pub fn made(&self) -> u64
        ensures { result ≡ next self.now - 1 }
    {
        (self.first + self.bodies.len() as u64).saturating_sub(1)
    }
}
