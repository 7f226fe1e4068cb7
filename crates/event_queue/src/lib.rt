//! Who waits for what: the shreds that wait on events, the longest first.
//!
//! Its one contract: contracts see the list of events and shreds by the numbers of the events, and
//! for each event in order of waiting, and [`Events::signal`] takes the longest waiter of one
//! event. The machine of many shreds asks it whom an event wakes.
//!
//! A shred waits on one event at most. Events are told apart by the numbers of their objects alone;
//! any `u64` is the number of a shred. A broadcast is a signal again and again until None: each one
//! leaves exactly the other waiters of the event, in their order. Only [`Events::wait`] takes
//! memory. Each call costs at most a logarithm of how many wait.
#![tactic(auto)]

ghost use Rattle.std.specs.Prelude.{◌≡◌, [], ◌∷◌, IfSome, IfNone, OnOk, OnErr};
ghost use Rattle.std.specs.Option.{option_map};
ghost use Rattle.event_queue.specs.Waiters.{times_waiting, without, arrived, waits_on};
ghost use Rattle.event_queue.specs.Waiters.{longest, waiting};

mod event;

use crate::event::Event;
use ck_values::Ref;
use fixed_point::Memory;
use shred_queues::Queues;
use std::alloc::Global;
use std::marker::Model;

/// The shreds that wait, each on one event.
///
/// Contracts see them with their events, by the numbers of the events, and for each event in order
/// of waiting.
#[derive(Drop)]
pub struct Events {
    queues: Queues<Event>,
}

impl Model for Events {
    ghost use Rattle.std.specs.Prelude.{List};
    ghost use Rattle.event_queue.specs.Waiters.{Wait};
    ghost use Rattle.event_queue.specs.Events.{all_waits};

    ghost Value = { List Wait };

    ghost view = { λ e. all_waits e.queues };
}

impl Events {
    /// No shred waits.
    pub fn new(alloc: Global) -> Events
        ensures { result ≡ [] }
    {
        Events {
            queues: Queues::new(alloc),
        }
    }

    /// Makes a shred, which waits on nothing yet, wait on an event: after all that wait on it
    /// already. The only error is want of memory, and then all stays as it was.
    pub fn wait(&mut self, event: Ref, shred: u64) -> Result<(), Memory>
        requires not_waiting { times_waiting shred self.old ≡ 0 }
        ensures waits { OnOk result
            (self.new ≡ arrived (record { event = event; shred = shred }) self.old) }
        ensures same { OnErr result (self.new ≡ self.old) }
    {
        self.queues.push(Event { object: event }, shred)
    }

    /// Takes the longest waiter of an event; None exactly where none waits on an event of that
    /// number.
    pub fn signal(&mut self, event: Ref) -> Option<u64>
        ensures longest { result ≡ option_map (λ wait. wait.shred) (longest event.serial self.old) }
        ensures taken { IfSome result (λ shred. self.new ≡ without shred self.old) }
        ensures others { IfSome (longest event.serial self.old) (λ wait.
            waits_on event.serial self.old ≡ wait ∷ waits_on event.serial self.new) }
        ensures none { IfNone result (waits_on event.serial self.old ≡ []) }
        ensures same { IfNone result (self.new ≡ self.old) }
    {
        let (_, shred) = self.queues.first_of(Event { object: event })?;
        self.queues.remove(shred);
        Some(shred)
    }

    /// Takes a shred out, and tells the event that it waited on; None exactly where it waits on
    /// none.
    pub fn drop_shred(&mut self, shred: u64) -> Option<Ref>
        ensures event { result ≡ option_map (λ wait. wait.event) (waiting shred self.old) }
        ensures without { self.new ≡ without shred self.old }
    {
        let event = self.queues.remove(shred)?;
        Some(event.object)
    }
}
