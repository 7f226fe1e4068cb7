//! Who wakes when: the shreds that are due at some time, the soonest first.
//!
//! Its one contract: contracts see the list of times and shreds by rising time, and among equal
//! times in order of arrival, and [`Shreduler::take_due`] takes the first one, where its time has
//! come. The machine of many shreds asks it which shred runs next.
//!
//! A shred is due at most once. Times are in samples, and any `i64` is one; any `u64` is the number
//! of a shred. Only [`Shreduler::shredule`] takes memory. Each call costs at most a logarithm of
//! how many are due.
#![tactic(auto)]

ghost use Rattle.std.specs.Prelude.{◌≡◌, ◌<ℤ◌, ℤ, [], Some, None};
ghost use Rattle.std.specs.Prelude.{IfSome, IfNone, OnOk, OnErr};
ghost use Rattle.std.specs.Bool.{OnTrue, OnFalse};
ghost use Rattle.std.specs.Option.{option_map};
ghost use Rattle.shreduler.specs.Queue.{times_due, without, arrived, first_due, next_time};

use fixed_point::Memory;
use shred_queues::Queues;
use std::alloc::Global;
use std::marker::Model;

/// The shreds that are due, each at most once.
///
/// Contracts see them with their times, by rising time, and among equal times in order of arrival.
#[derive(Drop)]
pub struct Shreduler {
    /// The queues by their times, in samples.
    queues: Queues<i64>,
}

impl Model for Shreduler {
    ghost use Rattle.std.specs.Prelude.{List};
    ghost use Rattle.shreduler.specs.Queue.{Due, all_due};

    ghost Value = { List Due };

    ghost view = { λ s. all_due s.queues };
}

impl Shreduler {
    /// No shred is due.
    pub fn new(alloc: Global) -> Shreduler
        ensures { result ≡ [] }
    {
        Shreduler {
            queues: Queues::new(alloc),
        }
    }

    /// Makes a shred, which isn't due yet, due at a time in samples: after all that are due by that
    /// time already. The only error is want of memory, and then all stays as it was.
    pub fn shredule(&mut self, shred: u64, time: i64) -> Result<(), Memory>
        requires not_due { times_due shred self.old ≡ 0 }
        ensures due { OnOk result
            (self.new ≡ arrived (record { time = time; shred = shred }) self.old) }
        ensures same { OnErr result (self.new ≡ self.old) }
    {
        self.queues.push(time, shred)
    }

    /// Takes the shred that comes first, by time, and by arrival at equal times. None exactly where
    /// none is due at or before `now`, in samples.
    pub fn take_due(&mut self, now: i64) -> Option<u64>
        ensures first { result ≡ option_map (λ due. due.shred) (first_due now self.old) }
        ensures taken { IfSome result (λ shred. self.new ≡ without shred self.old) }
        ensures none { IfNone result (self.new ≡ self.old) }
    {
        let (time, _) = self.queues.first()?;
        if time > now {
            return None;
        }
        let (_, shred) = self.queues.pop_first()?;
        Some(shred)
    }

    /// Takes a shred out, whenever it is due; false exactly where it isn't due at all.
    pub fn remove(&mut self, shred: u64) -> bool
        ensures was { OnTrue result (times_due shred self.old ≡ 1) }
        ensures was_not { OnFalse result (times_due shred self.old ≡ 0) }
        ensures without { self.new ≡ without shred self.old }
    {
        self.queues.remove(shred).is_some()
    }

    /// The least time at which a shred is due, in samples; before it nothing is due. None exactly
    /// where no shred is due at all.
    pub fn next_time(&self) -> Option<i64>
        ensures time { result ≡ next_time self.now }
        ensures nothing_before { IfSome result (λ time.
            (now : ℤ) → now <ℤ time → first_due now self.now ≡ None) }
    {
        let (time, _) = self.queues.first()?;
        Some(time)
    }
}
