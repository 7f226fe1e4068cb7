ghost use Rattle.std.specs.Prelude.{◌≡◌, ◌<◌, ◌↔◌, [], ◌∷◌, ◌++◌, length, Some};
ghost use Rattle.std.specs.Prelude.{slice_get, slice_set, IsNone, IfNone, IfSome, OnOk, OnErr, IfErr};
ghost use Rattle.object_heap.specs.Objects.{IsArray, values_of, with_values};

use ck_base::List;
use ck_values::{Elem, Value};
use fixed_point::HandedBack;

/// What an object is made of.
#[derive(Drop)]
pub enum Body {
    /// An instance of a class.
    Instance {
        /// The class's number.
        class: u32,
        /// Its fields: those of the eldest ancestor first.
        fields: List<Value>,
    },
    /// An array.
    Array {
        elem: Elem,
        /// Whether it has two dimensions: its items are references to its rows then.
        two: bool,
        items: List<Value>,
    },
    /// A unit generator, of which the graph has all else.
    Ugen {
        /// Its number in the graph, from 0.
        node: usize,
    },
}

impl Body {
    /// Its fields or its items; a unit generator has none.
    pub fn values(&self) -> &[Value]
        ensures { result.now ≡ values_of self.now }
    {
        match self {
            Body::Instance { class: _, fields } => fields.items(),
            Body::Array {
                elem: _,
                two: _,
                items,
            } => items.items(),
            Body::Ugen { node: _ } => &[],
        }
    }

    /// Puts a value in the place of a field or an item; the old one is handed back.
    pub fn replace(&mut self, index: usize, v: Value) -> Value
        requires { index < length (values_of self.old) }
        ensures set { self.new ≡ with_values self.old (slice_set (values_of self.old) index v) }
        ensures old { slice_get (values_of self.old) index ≡ Some result }
    {
        match self {
            Body::Instance { class: _, fields } => fields.replace(index, v),
            Body::Array {
                elem: _,
                two: _,
                items,
            } => items.replace(index, v),
            Body::Ugen { node: _ } => v,
        }
    }

    /// Puts a value at the end of an array, or hands it back for want of memory.
    pub fn grow(&mut self, v: Value) -> Result<(), HandedBack<Value>>
        requires { IsArray self.old }
        ensures grown { OnOk result
            (self.new ≡ with_values self.old (values_of self.old ++ v ∷ [])) }
        ensures same { OnErr result (self.new ≡ self.old) }
        ensures back { IfErr result (λ back. back.value ≡ v) }
    {
        match self {
            Body::Array {
                elem: _,
                two: _,
                items,
            } => items.push(v),
            Body::Instance { .. } | Body::Ugen { .. } => unreachable!(),
        }
    }

    /// Takes the last item of an array; `None` comes exactly where it has none.
    pub fn clear_one(&mut self) -> Option<Value>
        requires { IsArray self.old }
        ensures empty { IsNone result ↔ (values_of self.old ≡ []) }
        ensures last { IfSome result (λ v. values_of self.old ≡ values_of self.new ++ v ∷ []) }
        ensures rest { self.new ≡ with_values self.old (values_of self.new) }
        ensures none { IfNone result (self.new ≡ self.old) }
    {
        match self {
            Body::Array {
                elem: _,
                two: _,
                items,
            } => items.pop(),
            Body::Instance { .. } | Body::Ugen { .. } => None,
        }
    }
}
