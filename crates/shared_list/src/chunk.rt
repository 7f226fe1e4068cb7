//! The chunks that lists share.
ghost use Rattle.std.specs.Prelude.{◌≡◌, [], ◌∷◌, ◌++◌, ◌<◌, length, slice_set, IfOk, OnOk, OnErr};

use fixed_point::Memory;
use std::alloc::Global;
use std::marker::Model;
use std::rc::Rc;

/// How many items a full chunk has.
pub const CHUNK: usize = 256;

/// Some items that stand one after the other.
#[derive(Drop)]
pub(crate) struct Chunk<T> {
    items: Rc<Vec<T>>,
}

impl<T> Model for Chunk<T> {
    ghost use Rattle.std.specs.Prelude.{List as Items};
    ghost use Rattle.std.specs.Coded.{coded_list};

    ghost Value = { Items T };

    ghost coded = { coded_list T.code };

    ghost view = { λ it. it.items.value.items };
}

impl<T> Chunk<T> {
    /// The items in order.
    pub(crate) fn items(&self) -> &[T]
        ensures { result.now ≡ self.now }
    {
        self.items.as_ref().as_slice()
    }
}

impl<T: Copy> Chunk<T> {
    /// One item.
    pub(crate) fn one(alloc: Global, item: T) -> Result<Chunk<T>, Memory>
        ensures { IfOk result (λ chunk. chunk ≡ item ∷ []) }
    {
        let mut items = Vec::new(alloc);
        items.push(item)?;
        Ok(Chunk {
            items: Rc::new(alloc, items)?,
        })
    }

    /// The same items, which both share.
    pub(crate) fn share(&self) -> Result<Chunk<T>, Memory>
        ensures { IfOk result (λ copy. copy ≡ self.now) }
    {
        Ok(Chunk {
            items: self.items.clone()?,
        })
    }

    /// An item more at the end of a chunk that isn't full.
    pub(crate) fn push(&mut self, alloc: Global, item: T) -> Result<(), Memory>
        requires room { length self.old < CHUNK }
        ensures pushed { OnOk result (self.new ≡ self.old ++ item ∷ []) }
        ensures kept { OnErr result (self.new ≡ self.old) }
    {
        if let Some(items) = Rc::get_mut(&mut self.items) {
            items.push(item)?;
            return Ok(());
        }
        let before = self.items();
        let mut items = Vec::with_capacity(alloc, before.len() + 1)?;
        items.extend_from_slice(before)?;
        items.push(item)?;
        self.items = Rc::new(alloc, items)?;
        Ok(())
    }

    /// An item in the place of another, where there is one.
    pub(crate) fn set(&mut self, alloc: Global, index: usize, item: T) -> Result<(), Memory>
        ensures set { OnOk result (self.new ≡ slice_set self.old index item) }
        ensures kept { OnErr result (self.new ≡ self.old) }
    {
        if index >= self.items().len() {
            return Ok(());
        }
        if let Some(items) = Rc::get_mut(&mut self.items) {
            items[index] = item;
            return Ok(());
        }
        let mut items = Vec::from_slice(alloc, self.items())?;
        items[index] = item;
        self.items = Rc::new(alloc, items)?;
        Ok(())
    }
}
