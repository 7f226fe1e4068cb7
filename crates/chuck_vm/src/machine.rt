//! The shreds of a machine: who is live, and who ends with whom.
ghost use Rattle.std.specs.Prelude.{◌≡◌, ℕ, [], OnOk, map, is_some, IfOk};
ghost use Rattle.ck_run.specs.Run.{live, ended, first_shreds, first_due_of};
ghost use Rattle.ck_code.specs.Verified.{IsVerified};
ghost use Rattle.ck_meaning.specs.Replay.{by_code, run_code};
ghost use Rattle.chuck_vm.specs.Machine.{shreds_of, due_of, AreDueAlike};
ghost use Rattle.chuck_vm.specs.Machine.{Does, Reads, Stands};
ghost use Rattle.chuck_vm.specs.Running.{IsNumbered};

use ck_code::Code;
use event_queue::Events;
use fixed_point::Memory;
use live_shreds::Shreds;
use shreduler::Shreduler;
use stack_machine::{World, new_shred};
use std::alloc::Global;

/// The code, the world, the live shreds, and what they wait for.
#[derive(Drop)]
pub(crate) struct Machine {
    pub(crate) code: Code,
    pub(crate) world: World,
    pub(crate) shreds: Shreds,
    pub(crate) due: Shreduler,
    pub(crate) waits: Events,
}

/// Adds the shreds of the files, which are due at once, in their order.
fn add_mains(
    alloc: Global,
    code: &Code,
    shreds: &mut Shreds,
    due: &mut Shreduler,
) -> Result<(), Memory>
    requires no_shred { shreds.old ≡ [] }
    requires none_due { due.old ≡ [] }
    ensures shreds { OnOk result
        (shreds_of code.now shreds.new ≡ first_shreds (by_code code.now) 1 code.now.mains) }
    ensures due { OnOk result (AreDueAlike (map due_of due.new)
        (map first_due_of (first_shreds (by_code code.now) 1 code.now.mains))) }
    ensures verified { IsVerified code.now }
{
    for (i, main) in code.parts().mains.items().iter().enumerate() {
        let number = i as u64 + 1;
        shreds.push(new_shred(alloc, code, number, 0, *main, Vec::new(alloc))?)?;
        due.shredule(number, 0)?;
    }
    Ok(())
}

impl Machine {
    /// The machine before its first slice: the shreds of the files are due at once, in their order.
    pub(crate) fn first(alloc: Global, code: Code) -> Result<Machine, Memory>
        ensures first { IfOk result (λ machine. Stands machine (run_code code 0)) }
        ensures code { IfOk result (λ machine. machine.code ≡ code) }
        ensures verified { IfOk result (λ machine. IsVerified machine.code) }
        ensures ran { IfOk result (λ machine. machine.world.ran ≡ 0) }
    {
        let mut shreds = Shreds::new(alloc);
        let mut due = Shreduler::new(alloc);
        add_mains(alloc, &code, &mut shreds, &mut due)?;
        let world = World::new(alloc, &code)?;
        Ok(Machine {
            code,
            world,
            shreds,
            due,
            waits: Events::new(alloc),
        })
    }

    /// Whether a shred is live.
    pub(crate) fn is_live(&self, number: u64) -> bool
        ensures { Reads self.now (λ run. is_some (live run number)) result }
    {
        self.shreds.is_live(number)
    }

    /// A shred ends, and its children with it, and theirs; what they made is connected no longer. It
    /// takes no memory. They end one by one, each after its children: from one that has none the way
    /// goes back to its parent, until the shred itself has ended.
    pub(crate) fn end(&mut self, number: u64)
        requires orderly { (next : ℕ) × IsNumbered next self.old }
        ensures ended { Does self.old (λ run. ended run number) self.new }
        ensures code { self.new.code ≡ self.old.code }
        ensures ran { self.new.world.ran ≡ self.old.world.ran }
    {
        let mut at = number;
        'ending: while let Some(ended) = self.shreds.take_childless(at) {
            let id = ended.id();
            self.due.remove(id);
            self.waits.drop_shred(id);
            self.world.detach(id);
            if id == number {
                return;
            }
            at = ended.parent();
        }
    }
}
