//! Shreds at their places, the first of all apart.
ghost use Rattle.std.specs.Prelude.{◌≡◌, ℕ, [], ◌∷◌, IfSome, IfNone, IfOk, OnOk, OnErr, slice_get};
ghost use Rattle.std.specs.BTreeMap.{insert_entry};
ghost use Rattle.std.specs.List.{find, AllByRecursion};
ghost use Rattle.std.specs.Map.{keys_of};
ghost use Rattle.std.specs.declared.cmp.Ordering.TheVariants.{Less};
ghost use Rattle.shred_queues.specs.Places.{times, without, place_of, IsFree, is_from, AreOrderly};

use crate::held::Held;
use fixed_point::Memory;
use std::alloc::Global;
use std::marker::Model;

/// A shred at a place.
#[derive(Clone, Copy)]
pub(crate) struct Entry<P: Copy> {
    pub(crate) place: P,
    pub(crate) shred: u64,
}

/// Shreds at places, each place and each shred once. The shred that came before all others was put
/// apart, so it costs no map anything.
///
/// Contracts see the places with their shreds, in order of the places.
#[derive(Drop)]
pub(crate) struct Places<P: Ord + Copy + Drop> {
    first: Option<Entry<P>>,
    later: Held<P>,
}

impl<P: Ord + Copy + Drop> Model for Places<P> {
    ghost use Rattle.std.specs.Prelude.{List, ℕ};
    ghost use Rattle.shred_queues.specs.Places.{AreOrderly, with_first};

    ghost Value = { List (P × ℕ) };

    ghost view = { λ p. with_first p.first p.later };

    ghost invariant = { λ p. AreOrderly P.cmp (with_first p.first p.later) };
}

impl<P: Ord + Copy + Drop> Places<P> {
    /// No shred stands anywhere.
    pub(crate) fn new(alloc: Global) -> Places<P>
        ensures { result ≡ [] }
    {
        Places {
            first: None,
            later: Held::new(alloc),
        }
    }

    /// Puts a shred that stands nowhere at a place that is free. The only error is want of memory,
    /// and then all stays as it was.
    pub(crate) fn put(&mut self, place: P, shred: u64) -> Result<(), Memory>
        requires free { IsFree P.cmp place self.old }
        requires nowhere { times shred self.old ≡ 0 }
        ensures put { OnOk result (self.new ≡ insert_entry P.cmp self.old place shred) }
        ensures same { OnErr result (self.new ≡ self.old) }
        ensures orderly { AreOrderly P.cmp self.old }
    {
        match self.first() {
            Some((least, _)) if least < place => self.later.put(place, shred),
            _ => self.put_first(place, shred),
        }
    }

    /// The same at a place before all others.
    fn put_first(&mut self, place: P, shred: u64) -> Result<(), Memory>
        requires before { AllByRecursion (λ p. P.cmp place p ≡ Less) (keys_of self.old) }
        requires nowhere { times shred self.old ≡ 0 }
        ensures put { OnOk result (self.new ≡ insert_entry P.cmp self.old place shred) }
        ensures same { OnErr result (self.new ≡ self.old) }
    {
        if let Some(first) = self.first {
            self.later.put(first.place, first.shred)?;
        }
        self.first = Some(Entry { place, shred });
        Ok(())
    }

    /// The shred at the first place.
    pub(crate) fn first(&self) -> Option<(P, u64)>
        ensures first { result ≡ slice_get self.now 0 }
        ensures orderly { AreOrderly P.cmp self.now }
    {
        match self.first {
            Some(first) => Some((first.place, first.shred)),
            None => self.later.first(),
        }
    }

    /// The first shred at or behind a place.
    pub(crate) fn from(&self, place: P) -> Option<(P, u64)>
        ensures found { result ≡ find (λ e. is_from P.cmp place e.0) self.now }
        ensures orderly { AreOrderly P.cmp self.now }
    {
        match self.first {
            Some(first) if place <= first.place => Some((first.place, first.shred)),
            _ => self.later.from(place),
        }
    }

    /// Takes out the shred at the first place.
    pub(crate) fn pop_first(&mut self) -> Option<(P, u64)>
        ensures first { IfSome result (λ e. self.old ≡ e ∷ self.new) }
        ensures none { IfNone result (self.old ≡ []) }
        ensures same { IfNone result (self.new ≡ []) }
    {
        match self.first.take() {
            Some(first) => Some((first.place, first.shred)),
            None => self.later.pop_first(),
        }
    }

    /// Takes a shred out, and tells its place. None exactly where it stands nowhere.
    pub(crate) fn remove(&mut self, shred: u64) -> Option<P>
        ensures place { result ≡ place_of shred self.old }
        ensures without { self.new ≡ without shred self.old }
        ensures orderly { AreOrderly P.cmp self.old }
    {
        match self.first {
            Some(first) if first.shred == shred => {
                self.first = None;
                Some(first.place)
            }
            _ => self.later.remove(shred),
        }
    }

    /// All shreds with their places, in their order.
    pub(crate) fn all(&self, alloc: Global) -> Result<Vec<(P, u64)>, Memory>
        ensures all { IfOk result (λ all. all.items ≡ self.now) }
        ensures orderly { AreOrderly P.cmp self.now }
    {
        let mut all = Vec::new(alloc);
        if let Some(first) = self.first {
            all.push((first.place, first.shred))?;
        }
        self.later.list(&mut all)?;
        Ok(all)
    }
}
