ghost use Rattle.std.specs.Prelude.{◌≡◌, ◌+◌, ◌≤◌, length, IfOk, OnOk, OnErr};
ghost use Rattle.ck_base.specs.declared.limits.TheConstants.{MAX_FILES, MAX_SAMPLES};
ghost use Rattle.chuck_vm.specs.Telling.{Adds, AddsFronts};
ghost use Rattle.ck_meaning.specs.Replay.{run_code};
ghost use Rattle.chuck_vm.specs.Tallies.{tally_of, trap_count};
ghost use Rattle.chuck_vm.specs.Vm.{block_of};
ghost use Rattle.chuck_vm.specs.Wakes.{names_of, wakes_meant};

use crate::machine::Machine;
use crate::tally::Tally;
use crate::wake::Wake;
use ck_code::Code;
use fixed_point::Memory;
use std::alloc::Global;
use std::marker::Model;

/// A machine of shreds on its way.
///
/// Contracts see its code, the names of its files, and the number of samples that it has made. It
/// stands for the run of the code after so many samples.
#[derive(Drop)]
pub struct Vm {
    machine: Machine,
    names: Vec<String>,
    /// Samples.
    made: u32,
    /// Slices, and those that trapped, as far as 64 bits count.
    slices: u64,
    traps: u64,
}

impl Model for Vm {
    ghost use Rattle.chuck_vm.specs.Vm.{Sight, StandsFor};
    ghost use Rattle.chuck_vm.specs.Wakes.{names_of};

    ghost Value = { Sight };

    ghost view = { λ v. record {
      code = v.machine.code;
      names = names_of v.names.items;
      samples = v.made;
    } };

    ghost invariant = { λ v. StandsFor v.made v.slices v.traps v.machine };
}

impl Vm {
    /// The machine of a code of at most `MAX_FILES` files, which has made no samples. Traps are
    /// reported by the names of its files, one a file.
    pub fn start(alloc: Global, code: Code, names: Vec<String>) -> Result<Vm, Memory>
        requires files { length code.mains ≤ MAX_FILES }
        ensures { IfOk result (λ vm.
            vm ≡ record { code = code; names = names_of names.items; samples = 0 }) }
    {
        let machine = Machine::first(alloc, code)?;
        Ok(Vm {
            machine,
            names,
            made: 0,
            slices: 0,
            traps: 0,
        })
    }

    /// Makes so many more samples, at most `MAX_SAMPLES` in all, and adds what the run tells on the
    /// way to the three lists: the samples of the sheet, the text, and the slices that ran.
    ///
    /// After `Memory` the machine is given up, and some front of each was added.
    pub fn render(
        self,
        alloc: Global,
        count: u32,
        samples: &mut Vec<i16>,
        text: &mut Vec<u8>,
        wakes: &mut Vec<Wake>,
    ) -> Result<Vm, Memory>
        requires few { self.samples + count ≤ MAX_SAMPLES }
        ensures vm { IfOk result (λ vm.
            vm ≡ record self { samples = self.samples + count }) }
        ensures adds { OnOk result (Adds self.names (block_of self.code self.samples count)
            samples.old.items samples.new.items text.old.items text.new.items
            wakes.old.items wakes.new.items) }
        ensures fronts { OnErr result
            (AddsFronts self.names (block_of self.code self.samples count)
            samples.old.items samples.new.items text.old.items text.new.items
            wakes.old.items wakes.new.items) }
    {
        let Vm {
            mut machine,
            names,
            made,
            slices,
            traps,
        } = self;
        let before = wakes.len();
        machine.make(alloc, names.as_slice(), made, count, samples, text, wakes)?;
        let new = &wakes[before..];
        Ok(Vm {
            machine,
            names,
            made: made + count,
            slices: slices.saturating_add(new.len() as u64),
            traps: traps.saturating_add(trap_count(new)),
        })
    }

    /// The numbers of the run so far. It takes no memory.
    pub fn tally(&self) -> Tally
        ensures { let run = run_code self.now.code self.now.samples in
            result ≡ tally_of run run.begun }
    {
        let world = &self.machine.world;
        Tally {
            samples: u64::from(self.made),
            wakes: self.slices,
            traps: self.traps,
            shreds: world.shreds(),
            made: world.made(),
            instructions: world.ran(),
        }
    }
}

/// How many of these slices trapped.
fn trap_count(wakes: &[Wake]) -> u64
    ensures { result ≡ trap_count (wakes_meant wakes.now) }
{
    wakes.iter().filter(|wake| wake.trap.is_some()).count() as u64
}
