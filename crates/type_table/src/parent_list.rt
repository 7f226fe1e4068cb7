//! The parents of all classes in order, and the classes below each one.
ghost use Rattle.std.specs.Prelude.{◌≡◌, [], ◌∷◌, ◌++◌, ◌<◌, ◌^◌, true, length, slice_set, OnOk, IfOk, IfSome};
ghost use Rattle.type_table.specs.Lines.{classes_by};
ghost use Rattle.type_table.specs.Descendants.{ancestors_by, ArePut, are_before, AreAllBelow, AreListed};

use crate::fault::number;
use crate::line::{Line, above_by, ancestors_by, parent_by};
use crate::lists::Lists;
use fixed_point::Memory;
use std::alloc::Global;
use std::marker::Model;

/// The parent of each class, in order. For the classes of the newest file those below each are
/// found at once.
#[derive(Drop)]
pub struct Parents {
    all: Vec<u32>,
    /// The first class with a list of those below it.
    first: u32,
    /// The lists, where they are found for all parents that are here.
    below: Option<Lists>,
}

impl Model for Parents {
    ghost use Rattle.std.specs.Prelude.{List, ℕ};
    ghost use Rattle.type_table.specs.Descendants.{AreBelowLists};

    ghost Value = { List ℕ };

    ghost view = { λ it. it.all.items };

    ghost invariant = { λ it. AreBelowLists it.all.items it.first it.below };
}

/// So many lists without a number.
fn empty_lists(alloc: Global, count: usize) -> Result<Lists, Memory>
    ensures { IfOk result (λ lists. length lists ≡ count) }
{
    let mut lists = Lists::new(alloc);
    for _ in 0..count {
        lists.push_empty(alloc)?;
    }
    Ok(lists)
}

/// A class in the list of an ancestor, where that has one.
fn add_below(lists: &mut Lists, first: u32, class: u32, ancestor: u32) -> Result<(), Memory>
    ensures { OnOk result (ArePut lists.old lists.new first class (ancestor ∷ [])) }
{
    if ancestor < first {
        return Ok(());
    }
    lists.add((ancestor - first) as usize, class)
}

/// A class in the lists of a line of ancestors.
fn add_line(
    lists: &mut Lists,
    parents: &[u32],
    first: u32,
    class: u32,
    line: Line,
) -> Result<(), Memory>
    ensures { OnOk result
        (ArePut lists.old lists.new first class (classes_by parents.now line)) }
{
    add_below(lists, first, class, line.class)?;
    match above_by(parents, line) {
        Some(above) => add_line(lists, parents, first, class, above),
        None => Ok(()),
    }
}

/// A class in the lists of its ancestors.
fn add_ancestors(lists: &mut Lists, parents: &[u32], first: u32, class: u32) -> Result<(), Memory>
    ensures { OnOk result
        (ArePut lists.old lists.new first class (ancestors_by parents.now class)) }
{
    match ancestors_by(parents, class) {
        Some(above) => add_line(lists, parents, first, class, above),
        None => Ok(()),
    }
}

/// The classes below each one from the first on, which those before it aren't.
fn found_below(alloc: Global, parents: &[u32], first: u32) -> Result<Lists, Memory>
    requires before { are_before parents.now first first ≡ true }
    requires few { length parents.now < 2 ^ 32 }
    ensures { IfOk result (AreListed parents.now first (length parents.now)) }
{
    let mut lists = empty_lists(alloc, parents.len().saturating_sub(first as usize))?;
    for class in 0..number(parents.len()) {
        if class >= first {
            add_ancestors(&mut lists, parents, first, class)?;
        }
    }
    Ok(lists)
}

/// Whether the parents of all classes before this one stand before it too.
fn are_before(parents: &[u32], first: u32) -> bool
    ensures { result ≡ are_before parents.now first first }
{
    for class in 0..first {
        if parent_by(parents, class) >= first {
            return false;
        }
    }
    true
}

impl Parents {
    /// No class.
    pub(crate) fn new(alloc: Global) -> Parents
        ensures { result ≡ [] }
    {
        Parents {
            all: Vec::new(alloc),
            first: 0,
            below: None,
        }
    }

    /// How many classes there are.
    pub(crate) fn len(&self) -> usize
        ensures { result ≡ length self.now }
    {
        self.all.len()
    }

    /// The parents in order.
    pub(crate) fn as_slice(&self) -> &[u32]
        ensures { result.now ≡ self.now }
    {
        self.all.as_slice()
    }

    /// The parent of one class more.
    pub fn push(&mut self, parent: u32) -> Result<(), Memory>
        ensures { OnOk result (self.new ≡ self.old ++ parent ∷ []) }
    {
        self.below = None;
        self.all.push(parent)?;
        Ok(())
    }

    /// A class stands below this one.
    #[tactic(auto, using(crate::proofs::Changes::set_past))]
    pub fn set(&mut self, class: u32, parent: u32)
        ensures { self.new ≡ slice_set self.old class parent }
    {
        if (class as usize) < self.all.len() {
            self.below = None;
            self.all[class as usize] = parent;
        }
    }

    /// Finds the classes below each one from this on, which the classes before it aren't.
    pub fn find_below(&mut self, alloc: Global, first: u32) -> Result<(), Memory>
        requires few { length self.old < 2 ^ 32 }
        ensures { self.new ≡ self.old }
    {
        if !are_before(self.as_slice(), first) {
            return Ok(());
        }
        let lists = found_below(alloc, self.as_slice(), first)?;
        self.first = first;
        self.below = Some(lists);
        Ok(())
    }

    /// Those of so many classes that stand below one, and maybe more, where they are found.
    pub(crate) fn below(&self, class: u32, many: usize) -> Option<&[u32]>
        ensures { IfSome result (λ below. AreAllBelow self.now class many below.now) }
    {
        if many > self.len() || class < self.first {
            return None;
        }
        match &self.below {
            Some(lists) => lists.get((class - self.first) as usize),
            None => None,
        }
    }
}
