//! Shreds at their places, found by place and by number.
ghost use Rattle.std.specs.Prelude.{◌≡◌, ℕ, [], ◌∷◌, ◌++◌, IfSome, IfNone, OnOk, OnErr, None, slice_get};
ghost use Rattle.std.specs.BTreeMap.{insert_entry};
ghost use Rattle.std.specs.List.{find};
ghost use Rattle.shred_queues.specs.Places.{times, without, place_of, IsFree, is_from};

use fixed_point::Memory;
use std::alloc::Global;
use std::collections::BTreeMap;
use std::marker::Model;

/// Shreds at places, each place and each shred once.
///
/// Contracts see the places with their shreds, in order of the places.
#[derive(Drop)]
pub(crate) struct Held<P: Ord + Copy + Drop> {
    shreds: BTreeMap<P, u64>,
    places: BTreeMap<u64, P>,
}

impl<P: Ord + Copy + Drop> Model for Held<P> {
    ghost use Rattle.std.specs.Prelude.{List, ℕ};
    ghost use Rattle.shred_queues.specs.Places.{AreTied};

    ghost Value = { List (P × ℕ) };

    ghost view = { λ h. h.shreds.entries };

    ghost invariant = { λ h. AreTied P.cmp h.shreds h.places };
}

impl<P: Ord + Copy + Drop> Held<P> {
    /// No shred stands anywhere.
    pub(crate) fn new(alloc: Global) -> Held<P>
        ensures { result ≡ [] }
    {
        Held {
            shreds: BTreeMap::new(alloc),
            places: BTreeMap::new(alloc),
        }
    }

    /// Puts a shred that stands nowhere at a place that is free. The only error is want of memory,
    /// and then all stays as it was.
    pub(crate) fn put(&mut self, place: P, shred: u64) -> Result<(), Memory>
        requires free { IsFree P.cmp place self.old }
        requires nowhere { times shred self.old ≡ 0 }
        ensures put { OnOk result (self.new ≡ insert_entry P.cmp self.old place shred) }
        ensures same { OnErr result (self.new ≡ self.old) }
    {
        self.places.insert(shred, place)?;
        if let Err(failed) = self.shreds.insert(place, shred) {
            self.places.remove(&shred);
            return Err(failed.into());
        }
        Ok(())
    }

    /// The shred at the first place.
    pub(crate) fn first(&self) -> Option<(P, u64)>
        ensures { result ≡ slice_get self.now 0 }
    {
        let (place, shred) = self.shreds.first_key_value()?;
        Some((*place, *shred))
    }

    /// The first shred at or behind a place.
    pub(crate) fn from(&self, place: P) -> Option<(P, u64)>
        ensures { result ≡ find (λ e. is_from P.cmp place e.0) self.now }
    {
        let (place, shred) = self.shreds.range(place..).next()?;
        Some((*place, *shred))
    }

    /// Takes out the shred at the first place.
    pub(crate) fn pop_first(&mut self) -> Option<(P, u64)>
        ensures first { IfSome result (λ e. self.old ≡ e ∷ self.new) }
        ensures none { IfNone result (self.old ≡ []) }
        ensures same { IfNone result (self.new ≡ []) }
    {
        let (place, shred) = self.shreds.pop_first()?;
        self.places.remove(&shred);
        Some((place, shred))
    }

    /// Takes a shred out, and tells its place. None exactly where it stands nowhere.
    pub(crate) fn remove(&mut self, shred: u64) -> Option<P>
        ensures place { result ≡ place_of shred self.old }
        ensures without { self.new ≡ without shred self.old }
    {
        let place = self.places.remove(&shred)?;
        self.shreds.remove(&place);
        Some(place)
    }

    /// All shreds with their places, behind what is in a list.
    pub(crate) fn list(&self, all: &mut Vec<(P, u64)>) -> Result<(), Memory>
        ensures { OnOk result (all.new.items ≡ all.old.items ++ self.now) }
    {
        for (place, shred) in &self.shreds {
            all.push((*place, *shred))?;
        }
        Ok(())
    }
}
