ghost use Rattle.std.specs.Prelude.{◌≡◌, [], ◌∷◌, ◌++◌, ◌<◌, length, slice_get, slice_set, IsNone, IfNone, IfSome, OnOk, OnErr, IfErr, ◌↔◌};

use fixed_point::HandedBack;
use std::marker::Model;
use std::mem;

/// A `Vec` that contracts see as the list of its items.
///
/// A type of this repository may hold lists of itself, as a call in a tree holds its arguments.
#[derive(Drop)]
pub struct List<T> {
    items: Vec<T>,
}

impl<T> Model for List<T> {
    ghost use Rattle.std.specs.Prelude.{List as Items};
    ghost use Rattle.std.specs.Coded.{coded_list};

    ghost Value = { Items T };

    ghost coded = { coded_list T.code };

    ghost view = { λ it. it.items.items };
}

impl<T> List<T> {
    /// The list of a vector's items. It takes no memory.
    pub fn from_vec(v: Vec<T>) -> List<T>
        ensures { result ≡ v.items }
    {
        List { items: v }
    }

    /// The items in order.
    pub fn items(&self) -> &[T]
        ensures { result.now ≡ self.now }
    {
        self.items.as_slice()
    }

    /// The items as a vector. It takes no memory.
    pub fn into_vec(self) -> Vec<T>
        ensures { result.items ≡ self }
    {
        let List { items } = self;
        items
    }

    /// Adds an item at the end, or hands it back for want of memory.
    pub fn push(&mut self, v: T) -> Result<(), HandedBack<T>>
        ensures ok { OnOk result (self.new ≡ self.old ++ v ∷ []) }
        ensures full { OnErr result (self.new ≡ self.old) }
        ensures back { IfErr result (λ back. back.value ≡ v) }
    {
        self.items.push(v)?;
        Ok(())
    }

    /// Takes the last item. It takes no memory.
    pub fn pop(&mut self) -> Option<T>
        ensures empty { IsNone result ↔ (self.old ≡ []) }
        ensures last { IfSome result (λ last. self.old ≡ self.new ++ last ∷ []) }
        ensures none { IfNone result (self.new ≡ self.old) }
    {
        self.items.pop()
    }

    /// Puts an item in the place of another, which is handed back. It takes no memory.
    pub fn replace(&mut self, i: usize, v: T) -> T
        requires { i < length self.old }
        ensures new { self.new ≡ slice_set self.old i v }
        ensures old { slice_get self.old i ≡ Some result }
    {
        mem::replace(&mut self.items[i], v)
    }
}
