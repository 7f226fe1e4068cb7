//! Slices.
ghost use Rattle.std.specs.Prelude.{◌≡◌, ◌<◌, ◌+◌, ◌-◌, ℕ, [], IfOk, OnOk};
ghost use Rattle.ck_store.specs.Store.{Store};
ghost use Rattle.ck_code.specs.Verified.{IsVerified};
ghost use Rattle.ck_code.specs.Machine.{stopped_at};
ghost use Rattle.machine_world.specs.Shown.{shown, frames_of};
ghost use Rattle.machine_world.specs.Tries.{HasStore};
ghost use Rattle.machine_world.specs.Worlds.{StandsFor, counted};
ghost use Rattle.machine_world.specs.Steps.{IsSame, state_of};
ghost use Rattle.stack_machine.specs.Fitting.{FitBy, AreSuited, OfSuited, StaysFit};
ghost use Rattle.loop_steps.specs.Runs.{IsOver, run_of, begun_by};
ghost use Rattle.stack_machine.specs.Slices.{EndsAs, Tells, slice_of, begun_of};

use crate::step::step;
use ck_code::{Code, CodeParts};
use ck_values::{Place, Trap};
use fixed_point::Memory;
use loop_steps::{counted_to, go_on_with_int, int_put};
use machine_world::{Acts, Course, Stop, World, item_at, step_in, steps_at};
use shred_state::Shred;
use std::alloc::Global;

// Runs to the next stop. A line of instructions on ints is carried out with the int on the top held
// apart. Instructions are counted where the slice leaves a line of them, from the one at which it
// came there.
fn run(
    alloc: Global,
    code: &Code,
    shred: &mut Shred,
    world: &mut World,
    acts: &mut Acts,
) -> Result<Stop, Memory>
    requires over { HasStore world.old (λ store.
        IsOver (run_of code.now shred.old (state_of shred.old store acts.old))) }
    ensures ends { (store : Store) → StandsFor world.old store →
        let slice = run_of code.now shred.old (state_of shred.old store acts.old) in
        IsOver slice → IfOk result (λ stop. HasStore world.new (λ after.
        EndsAs stop slice code.now shred.new (state_of shred.new after acts.new))) }
    ensures same { OnOk result (IsSame shred.old shred.new) }
    ensures ran { (store : Store) → StandsFor world.old store →
        let old = state_of shred.old store acts.old in
        IsOver (run_of code.now shred.old old) → OnOk result
        (world.new.ran ≡ counted world.old.ran (begun_by code.now shred.old old)) }
{
    let parts = code.parts();
    let mut steps = steps_at(parts, shred.fun());
    let mut here = shred.place();
    let mut from = here;
    let mut stop = Stop::Ended;
    let mut begun: u64 = 0;
    'run: loop {
        let at = step_in(steps, here);
        if let Some(n) = int_put(shred, &at.instr) {
            if go_on_with_int(code, steps, shred, &mut here, &mut from, &mut begun, n)? {
                steps = steps_at(parts, shred.fun());
            }
            continue 'run;
        }
        match step(alloc, parts, at, here, shred, world, acts, &mut stop)? {
            Course::Ahead => here += 1,
            Course::Apart => {
                begun = counted_to(begun, from, here);
                here = shred.place();
                from = here;
            }
            Course::Elsewhere => {
                begun = counted_to(begun, from, here);
                steps = steps_at(parts, shred.fun());
                here = shred.place();
                from = here;
            }
            Course::Over => {
                world.count(counted_to(begun, from, here));
                return Ok(stop);
            }
        }
    }
}

// Where a shred stopped: at the instruction before the one at which it goes on.
#[tactic(auto, unfolding(machine_world::specs::Shown::shown))]
fn stopped_at(code: &CodeParts, shred: &Shred) -> Place
    ensures { result ≡ stopped_at code.now (frames_of (shown shred.now)) }
{
    let nowhere = Place { file: 0, line: 1 };
    let Some(fun) = item_at(code.funs.items(), shred.fun() as usize) else {
        return nowhere;
    };
    match item_at(fun.code.items(), shred.place().saturating_sub(1)) {
        Some(step) => step.place,
        None => nowhere,
    }
}

/// Runs a shred's next slice, on the world that it finds: its turns are made fresh where time has
/// gone on since its last slice, the slice's own turn is spent, and it goes on to the next stop.
/// Where no turn is left it traps at the place of the wait at which it stopped.
///
/// What it tells holds for every store that the world stands for and that fits. After `Memory` the
/// caller gives the shred, the world and the acts up.
pub fn slice(
    alloc: Global,
    code: &Code,
    shred: &mut Shred,
    world: &mut World,
    acts: &mut Acts,
) -> Result<Stop, Memory>
    requires empty { acts.old ≡ [] }
    requires fit { HasStore world.old (AreSuited code.now shred.old) }
    ensures tells { IfOk result (λ stop. OfSuited code.now shred.old world.old (λ store.
        Tells stop (slice_of code.now shred.old store) code.now shred.new world.new acts.new)) }
    ensures still_fit { IfOk result (λ stop. (store : Store) → StandsFor world.old store →
        (verified : IsVerified code.now) (main : ℕ) →
        FitBy code.now verified main shred.old store →
        StaysFit stop code.now verified main shred.new world.new) }
    ensures time { OnOk result (world.new.time ≡ world.old.time) }
    ensures number { OnOk result (shred.new.number ≡ shred.old.number) }
    ensures parent { OnOk result (shred.new.parent ≡ shred.old.parent) }
    ensures last { OnOk result (shred.new.last ≡ world.old.time) }
    ensures ran { OnOk result (OfSuited code.now shred.old world.old (λ store.
        world.new.ran ≡ counted world.old.ran (begun_of code.now shred.old store))) }
{
    shred.fresh(world.now());
    if !shred.spend() {
        let stopped = stopped_at(code.parts(), shred);
        return Ok(Stop::Trapped(Trap::Turns, stopped));
    }
    run(alloc, code, shred, world, acts)
}
