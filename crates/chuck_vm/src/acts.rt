//! What the acts and the request of a slice do to a machine.
ghost use Rattle.std.specs.Prelude.{◌≡◌, ℕ, ◌++◌, ◌∷◌, List, [], filter, fold, nat_eq};
ghost use Rattle.std.specs.Prelude.{Some, is_some, IfOk, OnOk, OnErr};
ghost use Rattle.ck_values.specs.Datum.{all_meant};
ghost use Rattle.ck_meaning.specs.Replay.{by_code, beginning};
ghost use Rattle.ck_run.specs.Report.{text_bytes};
ghost use Rattle.ck_run.specs.Run.{live, live_at, with_child, woken, ended_where};
ghost use Rattle.ck_run.specs.Run.{applied, carried_out_where, written};
ghost use Rattle.machine_world.specs.Acts.{act_meant};
ghost use Rattle.chuck_vm.specs.Machine.{Does, HasRun, Reads};
ghost use Rattle.chuck_vm.specs.Running.{IsIdle, IsNumbered};
ghost use Rattle.chuck_vm.specs.Telling.{IsNext, CanBegin, longest};
ghost use Rattle.chuck_vm.specs.Wakes.{stop_meant};

use crate::machine::Machine;
use ck_values::{Ref, Value};
use fixed_point::Memory;
use stack_machine::{Act, Stop, new_shred};
use std::alloc::Global;

impl Machine {
    /// A child of a shred with the next number, where that one is live.
    fn spork(
        &mut self,
        alloc: Global,
        parent: u64,
        number: u64,
        fun: u32,
        args: Vec<Value>,
    ) -> Result<(), Memory>
        requires orderly { IsNumbered number self.old }
        requires begins { CanBegin self.old.code fun (all_meant args.items) }
        ensures child { let p = beginning self.old.code fun (all_meant args.items) in
            OnOk result (Does self.old
            (λ run. with_child run parent number p (live run parent)) self.new) }
        ensures code { self.new.code ≡ self.old.code }
        ensures ran { self.new.world.ran ≡ self.old.world.ran }
    {
        if !self.is_live(parent) {
            return Ok(());
        }
        let child = new_shred(alloc, &self.code, number, parent, fun, args)?;
        self.shreds.push(child)?;
        self.due.shredule(number, self.world.now())?;
        Ok(())
    }

    /// Makes the longest waiter of an event due; false where none waits.
    fn wake_one(&mut self, event: Ref) -> Result<bool, Memory>
        requires orderly { (next : ℕ) × IsNumbered next self.old }
        ensures whether { IfOk result
            (Reads self.old (λ run. is_some (longest event.serial run))) }
        ensures woken { OnOk result
            (Does self.old (λ run. woken run (longest event.serial run)) self.new) }
        ensures code { self.new.code ≡ self.old.code }
        ensures ran { self.new.world.ran ≡ self.old.world.ran }
    {
        let Some(shred) = self.waits.signal(event) else {
            return Ok(false);
        };
        self.due.shredule(shred, self.world.now())?;
        Ok(true)
    }

    /// Makes all waiters of an event due, in the order of their waiting.
    fn wake_all(&mut self, event: Ref) -> Result<(), Memory>
        requires orderly { (next : ℕ) × IsNumbered next self.old }
        ensures woken { OnOk result (Does self.old
            (λ run. fold (λ now wait. woken now (Some wait)) run
            (filter (λ wait. nat_eq wait.event event.serial) run.waits)) self.new) }
        ensures code { self.new.code ≡ self.old.code }
        ensures ran { self.new.world.ran ≡ self.old.world.ran }
    {
        'waiters: while self.wake_one(event)? {}
        Ok(())
    }

    /// Ends the shred that a number of the language means, where there is one.
    fn remove(&mut self, number: i64)
        requires orderly { (next : ℕ) × IsNumbered next self.old }
        ensures ended { Does self.old (λ run. ended_where run (live_at run number)) self.new }
        ensures code { self.new.code ≡ self.old.code }
        ensures ran { self.new.world.ran ≡ self.old.world.ran }
    {
        if number < 0 {
            return;
        }
        let number = number.unsigned_abs();
        if self.is_live(number) {
            self.end(number);
        }
    }

    /// Applies an act of a shred, and adds what it prints.
    pub(crate) fn apply(
        &mut self,
        alloc: Global,
        shred: u64,
        act: Act,
        text: &mut Vec<u8>,
    ) -> Result<(), Memory>
        requires orderly { (next : ℕ) × IsNumbered next self.old
            × IsNext self.old.code next (act_meant act) }
        ensures becomes { OnOk result (Does self.old
            (λ run. applied (by_code self.old.code) shred run (act_meant act)) self.new) }
        ensures text { OnOk result ((names : List (List ℕ)) → text.new.items
            ≡ text.old.items ++ text_bytes names (written (act_meant act ∷ []))) }
        ensures same { OnErr result (text.new.items ≡ text.old.items) }
        ensures code { self.new.code ≡ self.old.code }
        ensures ran { self.new.world.ran ≡ self.old.world.ran }
    {
        match act {
            Act::Print(line) => Ok(text.extend_from_slice(line.items())?),
            Act::Spork { id, fun, args } => self.spork(alloc, shred, id, fun, args.into_vec()),
            Act::WakeOne(event) => {
                self.wake_one(event)?;
                Ok(())
            }
            Act::WakeAll(event) => self.wake_all(event),
            Act::Remove(number) => {
                self.remove(number);
                Ok(())
            }
        }
    }

    /// Carries out the request with which a shred stopped, where that one is live.
    pub(crate) fn carry_out(&mut self, shred: u64, stop: Stop) -> Result<(), Memory>
        requires orderly { (next : ℕ) × IsNumbered next self.old }
        requires idle { HasRun self.old (IsIdle shred) }
        ensures becomes { OnOk result (Does self.old
            (λ run. carried_out_where run (live run shred) (stop_meant stop)) self.new) }
        ensures code { self.new.code ≡ self.old.code }
        ensures ran { self.new.world.ran ≡ self.old.world.ran }
    {
        if !self.is_live(shred) {
            return Ok(());
        }
        match stop {
            Stop::At(time) => self.due.shredule(shred, time),
            Stop::On(event) => self.waits.wait(event, shred),
            Stop::Ended | Stop::Trapped(..) => {
                self.end(shred);
                Ok(())
            }
        }
    }
}
