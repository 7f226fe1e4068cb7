//! Chunks, one after another.
ghost use Rattle.std.specs.Prelude.{◌≡◌, [], ◌∷◌, ◌++◌, ◌+◌, ◌*◌, ◌/◌, ◌^◌, ◌<◌, ◌≤◌, length, take, drop, slice_get, slice_set, Some, IfOk, OnOk, OnErr, IfSome, IfNone};
ghost use Rattle.shared_list.specs.Chunks.{joined, AreChunks};

use crate::chunk::{CHUNK, Chunk};
use fixed_point::Memory;
use std::alloc::Global;
use std::marker::Model;

/// Items in chunks, which several lists may share. An item is found at once.
#[derive(Drop)]
pub(crate) struct Chunks<T> {
    /// All but the last are full.
    chunks: Vec<Chunk<T>>,
}

impl<T> Model for Chunks<T> {
    ghost use Rattle.std.specs.Prelude.{List as Items};
    ghost use Rattle.std.specs.Coded.{coded_list};

    ghost Value = { Items T };

    ghost coded = { coded_list T.code };

    ghost use Rattle.shared_list.specs.Chunks.{joined, AreChunks};

    ghost view = { λ it. joined it.chunks.items };

    ghost invariant = { λ it. AreChunks it.chunks.items };
}

// The same chunks, shared.
fn share_all<T: Copy>(alloc: Global, chunks: &[Chunk<T>]) -> Result<Vec<Chunk<T>>, Memory>
    ensures { IfOk result (λ copies. copies.items ≡ chunks.now) }
{
    let mut copies = Vec::with_capacity(alloc, chunks.len())?;
    for chunk in chunks {
        copies.push(chunk.share()?)?;
    }
    Ok(copies)
}

// The number of the last chunk, where it isn't full.
fn last_with_room<T>(chunks: &[Chunk<T>]) -> Option<usize>
    requires chunks { AreChunks chunks.now }
    ensures last { IfSome result (λ last. length chunks.now ≡ last + 1) }
    ensures room { IfSome result (λ last. length (joined chunks.now) < CHUNK * length chunks.now) }
    ensures full { IfNone result (CHUNK * length chunks.now ≤ length (joined chunks.now)) }
{
    let last = chunks.len().checked_sub(1)?;
    if chunks[last].items().len() == CHUNK {
        return None;
    }
    Some(last)
}

// An item more at the end: in the last chunk, where it isn't full.
fn push_into<T: Copy>(alloc: Global, chunks: &mut Vec<Chunk<T>>, item: T) -> Result<(), Memory>
    requires chunks { AreChunks chunks.old.items }
    ensures chunks { AreChunks chunks.new.items }
    ensures pushed { OnOk result (joined chunks.new.items ≡ joined chunks.old.items ++ item ∷ []) }
    ensures kept { OnErr result (chunks.new.items ≡ chunks.old.items) }
{
    if let Some(last) = last_with_room(chunks) {
        return chunks[last].push(alloc, item);
    }
    chunks.push(Chunk::one(alloc, item)?)?;
    Ok(())
}

impl<T> Chunks<T> {
    /// No item. It takes no memory.
    pub(crate) fn new(alloc: Global) -> Chunks<T>
        ensures { result ≡ [] }
    {
        Chunks {
            chunks: Vec::new(alloc),
        }
    }

    /// The item that stands behind so many others.
    pub(crate) fn item(&self, index: usize) -> &T
        requires { index < length self.now }
        ensures { slice_get self.now index ≡ Some result.now }
    {
        let chunk = &self.chunks[index / CHUNK];
        &chunk.items()[index % CHUNK]
    }

    /// How many chunks there are.
    pub(crate) fn chunk_count(&self) -> usize
        ensures enough { length self.now ≤ CHUNK * result }
        ensures no_more { CHUNK * result < length self.now + CHUNK }
        ensures few { result < 2 ^ 63 }
    {
        self.chunks.len()
    }

    /// The items of the chunk that stands behind so many others.
    pub(crate) fn chunk(&self, number: usize) -> &[T]
        requires { CHUNK * number < length self.now }
        ensures { result.now ≡ take CHUNK (drop (CHUNK * number) self.now) }
    {
        self.chunks[number].items()
    }
}

impl<T: Copy> Chunks<T> {
    /// The same chunks, shared.
    pub(crate) fn share(&self, alloc: Global) -> Result<Chunks<T>, Memory>
        ensures { IfOk result (λ copy. copy ≡ self.now) }
    {
        Ok(Chunks {
            chunks: share_all(alloc, &self.chunks)?,
        })
    }

    /// An item more at the end.
    pub(crate) fn push(&mut self, alloc: Global, item: T) -> Result<(), Memory>
        ensures pushed { OnOk result (self.new ≡ self.old ++ item ∷ []) }
        ensures kept { OnErr result (self.new ≡ self.old) }
    {
        push_into(alloc, &mut self.chunks, item)
    }

    /// An item in the place of another, where there is one.
    pub(crate) fn set(&mut self, alloc: Global, index: usize, item: T) -> Result<(), Memory>
        ensures set { OnOk result (self.new ≡ slice_set self.old index item) }
        ensures kept { OnErr result (self.new ≡ self.old) }
    {
        if index / CHUNK >= self.chunks.len() {
            return Ok(());
        }
        self.chunks[index / CHUNK].set(alloc, index % CHUNK, item)
    }
}
