//! Waits until a time, and yields.
ghost use Rattle.std.specs.Prelude.{◌≡◌};
ghost use Rattle.ck_code.specs.declared.instr.Instr.TheVariants.{WaitTime, Yield};
ghost use Rattle.machine_world.specs.Scenes.{CanRunIn, CanRunAlone, CarriesIn};

use ck_code::Step;
use machine_world::{Stop, Then, World, wait_time};
use shred_state::Shred;

/// Waits until the time on the top; it is a trap where that is before now.
pub(crate) fn wait_until(at: &Step, shred: &mut Shred, world: &World) -> Then
    requires is { at.now.instr ≡ WaitTime }
    requires can { CanRunIn world.now at.now shred.old }
    ensures carries { CarriesIn world.now at.now result shred.old shred.new world.now }
{
    let until = shred.pop();
    match wait_time(&until, world) {
        Ok(time) => {
            shred.go_on();
            Then::Stopped(Stop::At(time))
        }
        Err(trap) => Then::Stopped(Stop::Trapped(trap, at.place)),
    }
}

/// Stops, to go on at this very time after all others that are due now.
pub(crate) fn yield_now(at: &Step, shred: &mut Shred, world: &World) -> Then
    requires is { at.now.instr ≡ Yield }
    requires can { CanRunAlone at.now shred.old }
    ensures carries { CarriesIn world.now at.now result shred.old shred.new world.now }
{
    shred.go_on();
    Then::Stopped(Stop::At(world.now()))
}
