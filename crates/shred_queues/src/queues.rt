//! Shreds in queues, one queue for each key.
ghost use Rattle.std.specs.Prelude.{◌≡◌, ◌+◌, ◌<◌, ◌^◌, [], ◌∷◌, IfSome, IfNone, IfOk, OnOk, OnErr, slice_get};
ghost use Rattle.std.specs.List.{find};
ghost use Rattle.std.specs.Ordering.{is_eq};
ghost use Rattle.shred_queues.specs.Places.{times, without, place_of, AreApart};
ghost use Rattle.shred_queues.specs.Queues.{arrived, keyed, AreBefore, IsRising};

use crate::places::Places;
use fixed_point::Memory;
use std::alloc::Global;
use std::marker::Model;

/// A place in a queue: those of one key stand in order of their tickets.
#[derive(Clone, Copy, PartialEq, Eq, PartialOrd, Ord)]
pub(crate) struct Place<K: Ord + Copy> {
    pub(crate) key: K,
    pub(crate) ticket: u64,
}

/// Shreds in queues, each shred at most once.
///
/// Contracts see the keys with their shreds, by rising key, and among equal keys in order of
/// arrival.
#[derive(Drop)]
pub struct Queues<K: Ord + Copy + Drop> {
    alloc: Global,
    places: Places<Place<K>>,
    /// The ticket of the next shred.
    next: u64,
}

impl<K: Ord + Copy + Drop> Model for Queues<K> {
    ghost use Rattle.std.specs.Prelude.{List, ℕ};
    ghost use Rattle.shred_queues.specs.Queues.{keyed, AreBefore};

    ghost Value = { List (K × ℕ) };

    ghost view = { λ q. keyed q.places };

    ghost invariant = { λ q. AreBefore q.next q.places };
}

/// Puts a shred that stands nowhere into the queue of a key, by a ticket that is behind all others.
fn add<K: Ord + Copy + Drop>(
    places: &mut Places<Place<K>>,
    key: K,
    shred: u64,
    ticket: u64,
) -> Result<(), Memory>
    requires before { AreBefore ticket places.old }
    requires nowhere { times shred places.old ≡ 0 }
    ensures arrived { OnOk result
        (keyed places.new ≡ arrived K.cmp key shred (keyed places.old)) }
    ensures before { OnOk result (AreBefore (ticket + 1) places.new) }
    ensures same { OnErr result (places.new ≡ places.old) }
{
    places.put(Place { key, ticket }, shred)
}

/// The same shreds in the same queues by the first tickets there are, and the ticket of the next
/// one.
fn numbered_anew<K: Ord + Copy + Drop>(
    alloc: Global,
    places: &Places<Place<K>>,
) -> Result<(Places<Place<K>>, u64), Memory>
    ensures same { IfOk result (λ anew. keyed anew.0 ≡ keyed places.now) }
    ensures before { IfOk result (λ anew. AreBefore anew.1 anew.0) }
    ensures free { IfOk result (λ anew. anew.1 < 2 ^ 63) }
{
    let mut anew = Places::new(alloc);
    let mut next = 0;
    for (place, shred) in places.all(alloc)? {
        add(&mut anew, place.key, shred, next)?;
        next += 1;
    }
    Ok((anew, next))
}

impl<K: Ord + Copy + Drop> Queues<K> {
    /// All queues are empty.
    pub fn new(alloc: Global) -> Queues<K>
        ensures { result ≡ [] }
    {
        Queues {
            alloc,
            places: Places::new(alloc),
            next: 0,
        }
    }

    /// Puts a shred that stands in no queue into the queue of a key, behind all that stand in it.
    /// The only error is want of memory, and then all stays as it was.
    pub fn push(&mut self, key: K, shred: u64) -> Result<(), Memory>
        requires nowhere { times shred self.old ≡ 0 }
        ensures arrived { OnOk result (self.new ≡ arrived K.cmp key shred self.old) }
        ensures same { OnErr result (self.new ≡ self.old) }
    {
        if self.next == u64::MAX {
            let (places, next) = numbered_anew(self.alloc, &self.places)?;
            self.places = places;
            self.next = next;
        }
        add(&mut self.places, key, shred, self.next)?;
        self.next += 1;
        Ok(())
    }

    /// The first shred of all, with its key.
    pub fn first(&self) -> Option<(K, u64)>
        ensures first { result ≡ slice_get self.now 0 }
        ensures rising { IsRising K.cmp self.now }
        ensures apart { AreApart self.now }
    {
        let (place, shred) = self.places.first()?;
        Some((place.key, shred))
    }

    /// The first shred in the queue of a key, with the key that it came by.
    pub fn first_of(&self, key: K) -> Option<(K, u64)>
        ensures { result ≡ find (λ e. is_eq (K.cmp key e.0)) self.now }
    {
        let (place, shred) = self.places.from(Place { key, ticket: 0 })?;
        if key == place.key {
            Some((place.key, shred))
        } else {
            None
        }
    }

    /// Takes out the first shred of all.
    pub fn pop_first(&mut self) -> Option<(K, u64)>
        ensures first { IfSome result (λ e. self.old ≡ e ∷ self.new) }
        ensures none { IfNone result (self.old ≡ []) }
        ensures same { IfNone result (self.new ≡ []) }
    {
        let (place, shred) = self.places.pop_first()?;
        Some((place.key, shred))
    }

    /// Takes a shred out, and tells the key that it came by. None exactly where it stands in no
    /// queue.
    pub fn remove(&mut self, shred: u64) -> Option<K>
        ensures place { result ≡ place_of shred self.old }
        ensures without { self.new ≡ without shred self.old }
        ensures apart { AreApart self.old }
    {
        let place = self.places.remove(shred)?;
        Some(place.key)
    }
}
