//! Lists that share their chunks.
ghost use Rattle.std.specs.Prelude.{◌≡◌, [], ◌∷◌, ◌++◌, ◌+◌, ◌*◌, ◌<◌, ◌≤◌, length, take, drop, slice_get, slice_set, Some, IfOk, OnOk, OnErr};

use crate::chunk::CHUNK;
use crate::chunks::Chunks;
use fixed_point::Memory;
use std::alloc::Global;
use std::marker::Model;

/// A list of plain data, which shares its chunks with its copies.
///
/// An item is found at once. Where a copy is changed, it gets a chunk of its own for the one that
/// changes, and goes on sharing the others. The first [`CHUNK`] items each list has for itself: most
/// lists are short.
#[derive(Drop)]
pub struct SharedList<T> {
    first: Vec<T>,
    /// The items behind a full first chunk.
    rest: Chunks<T>,
}

impl<T> Model for SharedList<T> {
    ghost use Rattle.std.specs.Prelude.{◌≡◌, ◌<◌, ◌≤◌, ◌++◌, length, List as Items};
    ghost use Rattle.std.specs.Coded.{coded_list};
    ghost use Rattle.shared_list.specs.declared.chunk.TheConstants.{CHUNK};

    ghost Value = { Items T };

    ghost coded = { coded_list T.code };

    ghost view = { λ it. it.first.items ++ it.rest };

    ghost invariant = { λ it.
        (length it.first.items ≤ CHUNK)
        × (0 < length it.rest → length it.first.items ≡ CHUNK) };
}

impl<T> SharedList<T> {
    /// No item. It takes no memory.
    pub fn new(alloc: Global) -> SharedList<T>
        ensures { result ≡ [] }
    {
        SharedList {
            first: Vec::new(alloc),
            rest: Chunks::new(alloc),
        }
    }

    /// The item that stands behind so many others.
    pub fn item(&self, index: usize) -> &T
        requires { index < length self.now }
        ensures { slice_get self.now index ≡ Some result.now }
    {
        if index < self.first.len() {
            return &self.first[index];
        }
        self.rest.item(index - self.first.len())
    }

    /// How many chunks there are.
    pub fn chunk_count(&self) -> usize
        ensures enough { length self.now ≤ CHUNK * result }
        ensures no_more { CHUNK * result < length self.now + CHUNK }
    {
        if self.first.is_empty() {
            return 0;
        }
        1 + self.rest.chunk_count()
    }

    /// The items of the chunk that stands behind so many others.
    pub fn chunk(&self, number: usize) -> &[T]
        requires { CHUNK * number < length self.now }
        ensures { result.now ≡ take CHUNK (drop (CHUNK * number) self.now) }
    {
        if number == 0 {
            return self.first.as_slice();
        }
        self.rest.chunk(number - 1)
    }
}

impl<T: Copy> SharedList<T> {
    /// A list of the same items, which both share.
    pub fn share(&self, alloc: Global) -> Result<SharedList<T>, Memory>
        ensures { IfOk result (λ copy. copy ≡ self.now) }
    {
        Ok(SharedList {
            first: Vec::from_slice(alloc, &self.first)?,
            rest: self.rest.share(alloc)?,
        })
    }

    /// An item more at the end; for want of memory the list stays as it was.
    pub fn push(&mut self, alloc: Global, item: T) -> Result<(), Memory>
        ensures pushed { OnOk result (self.new ≡ self.old ++ item ∷ []) }
        ensures kept { OnErr result (self.new ≡ self.old) }
    {
        if self.first.len() == CHUNK {
            return self.rest.push(alloc, item);
        }
        self.first.push(item)?;
        Ok(())
    }

    /// An item in the place of another, where there is one; for want of memory the list stays as it
    /// was.
    pub fn set(&mut self, alloc: Global, index: usize, item: T) -> Result<(), Memory>
        ensures set { OnOk result (self.new ≡ slice_set self.old index item) }
        ensures kept { OnErr result (self.new ≡ self.old) }
    {
        if index < self.first.len() {
            self.first[index] = item;
            return Ok(());
        }
        self.rest.set(alloc, index - self.first.len(), item)
    }
}
