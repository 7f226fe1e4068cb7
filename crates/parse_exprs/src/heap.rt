//! Parts of a tree on the heap.
//!
//! The functions of the parser hand each other a tree in a box.
ghost use Rattle.std.specs.Prelude.{◌≡◌, ◌++◌, ◌∷◌, [], IfOk, OnOk};

use fixed_point::Memory;
use std::alloc::Global;

/// The value in a box.
pub fn boxed<T: Drop>(alloc: Global, value: T) -> Result<Box<T>, Memory>
    ensures { IfOk result (λ b. b.value ≡ value) }
{
    let boxed = Box::new(alloc, value)?;
    Ok(boxed)
}

/// Adds an item at the end.
pub fn push<T: Drop>(items: &mut Vec<T>, item: T) -> Result<(), Memory>
    ensures items { OnOk result (items.new.items ≡ items.old.items ++ item ∷ []) }
{
    items.push(item)?;
    Ok(())
}

/// Adds what is in the box at the end.
pub fn push_boxed<T: Drop>(items: &mut Vec<T>, item: Box<T>) -> Result<(), Memory>
    ensures items { OnOk result (items.new.items ≡ items.old.items ++ item.value ∷ []) }
{
    push(items, Box::into_inner(item))
}
