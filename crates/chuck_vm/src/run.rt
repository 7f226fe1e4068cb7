//! The slices of a machine, one after another, and the samples.
ghost use Rattle.std.specs.Prelude.{◌≡◌, ℕ, ◌+◌, ◌++◌, ◌<◌, ◌≤◌, List, [], length};
ghost use Rattle.std.specs.Prelude.{fold, None, IfOk, IfSome, IfNone, OnOk, OnErr};
ghost use Rattle.std.specs.Option.{option_map};
ghost use Rattle.ck_base.specs.declared.limits.TheConstants.{MAX_FILES, MAX_SAMPLES};
ghost use Rattle.ck_code.specs.Verified.{IsVerified};
ghost use Rattle.ck_meaning.specs.Replay.{by_code, run_code};
ghost use Rattle.ck_run.specs.Report.{text_bytes};
ghost use Rattle.ck_run.specs.Run.{applied, trap_of, written};
ghost use Rattle.ck_run.specs.Sound.{AreNumbered, AllSporks};
ghost use Rattle.ck_run.specs.Told.{AddsFront};
ghost use Rattle.live_shreds.specs.Live.{numbered};
ghost use Rattle.machine_world.specs.Acts.{all_acts_meant};
ghost use Rattle.machine_world.specs.Tries.{HasStore};
ghost use Rattle.stack_machine.specs.Fitting.{AreSuited};
ghost use Rattle.chuck_vm.specs.Machine.{Does, HasRun, Stands};
ghost use Rattle.chuck_vm.specs.Running.{CanRun, CanRunSlice, IsNumbered, IsQuietBefore};
ghost use Rattle.chuck_vm.specs.Running.{OfSettled, OfSlice, Ran};
ghost use Rattle.chuck_vm.specs.Telling.{CanBegin, Becomes, TellsFront, Adds, AddsFronts};
ghost use Rattle.chuck_vm.specs.Tallies.{Counts, as_counted};
ghost use Rattle.chuck_vm.specs.Vm.{block_of};
ghost use Rattle.chuck_vm.specs.Wakes.{names_of, trap_meant, stop_meant};

use crate::machine::Machine;
use crate::report::note;
use crate::wake::{TrapAt, Wake};
use fixed_point::Memory;
use stack_machine::{Acts, Stop};
use std::alloc::Global;

/// The trap with which a shred stopped.
fn trap_of(stop: &Stop) -> Option<TrapAt>
    ensures { option_map trap_meant result ≡ trap_of (stop_meant stop.now) }
{
    match stop {
        Stop::Trapped(trap, place) => Some(TrapAt {
            trap: *trap,
            place: *place,
        }),
        Stop::At(_) | Stop::On(_) | Stop::Ended => None,
    }
}

impl Machine {
    /// Runs the next slice of the shred with a number. None exactly where it isn't live, and then
    /// nothing has changed.
    fn slice_of(
        &mut self,
        alloc: Global,
        number: u64,
        acts: &mut Acts,
    ) -> Result<Option<Stop>, Memory>
        requires empty { acts.old ≡ [] }
        requires suited { IfSome (numbered number self.old.shreds) (λ shred.
            HasStore self.old.world (AreSuited self.old.code shred)) }
        ensures ran { IfOk result (λ stop. IfSome stop (λ stop.
            Ran stop number self.old self.new acts.new)) }
        ensures none { IfOk result (λ stop. IfNone stop
            (numbered number self.old.shreds ≡ None)) }
        ensures same { IfOk result (λ stop. IfNone stop (self.new ≡ self.old)) }
        ensures code { self.new.code ≡ self.old.code }
    {
        self.shreds
            .run_slice(alloc, number, &self.code, &mut self.world, acts)
    }

    /// Applies the acts of a shred in their order, and adds what they print.
    fn apply_all(
        &mut self,
        alloc: Global,
        shred: u64,
        acts: Acts,
        text: &mut Vec<u8>,
    ) -> Result<(), Memory>
        requires orderly { (next to : ℕ) × (1 ≤ next) × IsNumbered next self.old
            × AreNumbered next to (all_acts_meant acts) }
        requires begin { AllSporks (CanBegin self.old.code) (all_acts_meant acts) }
        ensures becomes { let by = applied (by_code self.old.code) shred in
            OnOk result (Does self.old (λ run. fold by run (all_acts_meant acts)) self.new) }
        ensures text { OnOk result ((names : List (List ℕ)) → text.new.items
            ≡ text.old.items ++ text_bytes names (written (all_acts_meant acts))) }
        ensures front { OnErr result ((names : List (List ℕ)) → AddsFront
            (text_bytes names (written (all_acts_meant acts))) text.old.items text.new.items) }
        ensures code { self.new.code ≡ self.old.code }
        ensures ran { self.new.world.ran ≡ self.old.world.ran }
    {
        if acts.items().is_empty() {
            return Ok(());
        }
        for act in acts.into_vec() {
            self.apply(alloc, shred, act, text)?;
        }
        Ok(())
    }

    /// Runs the next slice of a shred that was due, where it is live: its acts are applied, it is
    /// noted, and its request is carried out.
    fn run_slice(
        &mut self,
        alloc: Global,
        names: &[String],
        number: u64,
        text: &mut Vec<u8>,
        wakes: &mut Vec<Wake>,
    ) -> Result<(), Memory>
        requires can_run { HasRun self.old (CanRunSlice self.old.code number) }
        ensures becomes { OnOk result (OfSlice self.old number (λ run.
            Becomes (names_of names.now) run self.new
            text.old.items text.new.items wakes.old.items wakes.new.items)) }
        ensures front { OnErr result (OfSlice self.old number (λ run.
            TellsFront (names_of names.now) run
            text.old.items text.new.items wakes.old.items wakes.new.items)) }
        ensures code { self.new.code ≡ self.old.code }
        ensures counts { OnOk result (OfSlice self.old number (λ run.
            Counts run.begun self.old.world.ran self.new.world.ran)) }
    {
        let mut acts = Acts::new(alloc);
        let Some(stop) = self.slice_of(alloc, number, &mut acts)? else {
            return Ok(());
        };
        self.apply_all(alloc, number, acts, text)?;
        let wake = Wake {
            at: self.world.now(),
            shred: number,
            trap: trap_of(&stop),
        };
        note(alloc, names, wake, text, wakes)?;
        self.carry_out(number, stop)
    }

    /// Runs all slices that are due.
    fn settle(
        &mut self,
        alloc: Global,
        names: &[String],
        text: &mut Vec<u8>,
        wakes: &mut Vec<Wake>,
    ) -> Result<(), Memory>
        requires can_run { HasRun self.old (CanRun self.old.code) }
        ensures becomes { OnOk result (OfSettled self.old (λ run.
            Becomes (names_of names.now) run self.new
            text.old.items text.new.items wakes.old.items wakes.new.items)) }
        ensures front { OnErr result (OfSettled self.old (λ run.
            TellsFront (names_of names.now) run
            text.old.items text.new.items wakes.old.items wakes.new.items)) }
        ensures code { self.new.code ≡ self.old.code }
        ensures counts { OnOk result (OfSettled self.old (λ run.
            Counts run.begun self.old.world.ran self.new.world.ran)) }
    {
        'due: while let Some(number) = self.due.take_due(self.world.now()) {
            self.run_slice(alloc, names, number, text, wakes)?;
        }
        Ok(())
    }

    /// A time before which nothing is due.
    fn next_due(&self) -> i64
        ensures { IsQuietBefore result self.now }
    {
        self.due.next_time().unwrap_or(i64::MAX)
    }

    /// Runs all slices that are due, where none is before a time, and hands back such a time
    /// again. So a sample at which nothing is due costs no look at what is due later.
    fn settle_from(
        &mut self,
        alloc: Global,
        names: &[String],
        next: i64,
        text: &mut Vec<u8>,
        wakes: &mut Vec<Wake>,
    ) -> Result<i64, Memory>
        requires can_run { HasRun self.old (CanRun self.old.code) }
        requires none_before { IsQuietBefore next self.old }
        ensures becomes { OnOk result (OfSettled self.old (λ run.
            Becomes (names_of names.now) run self.new
            text.old.items text.new.items wakes.old.items wakes.new.items)) }
        ensures none_before { IfOk result (λ next. IsQuietBefore next self.new) }
        ensures front { OnErr result (OfSettled self.old (λ run.
            TellsFront (names_of names.now) run
            text.old.items text.new.items wakes.old.items wakes.new.items)) }
        ensures code { self.new.code ≡ self.old.code }
        ensures counts { OnOk result (OfSettled self.old (λ run.
            Counts run.begun self.old.world.ran self.new.world.ran)) }
    {
        if self.world.now() < next {
            return Ok(next);
        }
        self.settle(alloc, names, text, wakes)?;
        Ok(self.next_due())
    }

    /// Makes so many samples, where some were made. Room for them is there first.
    pub(crate) fn make(
        &mut self,
        alloc: Global,
        names: &[String],
        made: u32,
        count: u32,
        samples: &mut Vec<i16>,
        text: &mut Vec<u8>,
        wakes: &mut Vec<Wake>,
    ) -> Result<(), Memory>
        requires verified { IsVerified self.old.code }
        requires files { length self.old.code.mains ≤ MAX_FILES }
        requires few { made + count ≤ MAX_SAMPLES }
        requires stands { Stands self.old (run_code self.old.code made) }
        requires ran { self.old.world.ran ≡ as_counted (run_code self.old.code made).begun }
        ensures stands { OnOk result
            (Stands self.new (run_code self.old.code (made + count))) }
        ensures adds { OnOk result (Adds (names_of names.now) (block_of self.old.code made count)
            samples.old.items samples.new.items text.old.items text.new.items
            wakes.old.items wakes.new.items) }
        ensures fronts { OnErr result
            (AddsFronts (names_of names.now) (block_of self.old.code made count)
            samples.old.items samples.new.items text.old.items text.new.items
            wakes.old.items wakes.new.items) }
        ensures code { self.new.code ≡ self.old.code }
        ensures ran { OnOk result
            (self.new.world.ran ≡ as_counted (run_code self.old.code (made + count)).begun) }
    {
        samples.reserve(count as usize)?;
        let mut next = self.next_due();
        for i in 0..count {
            next = self.settle_from(alloc, names, next, text, wakes)?;
            samples.push(self.world.sample())?;
        }
        Ok(())
    }
}
