//! Instructions on objects.
ghost use Rattle.std.specs.Prelude.{◌≡◌, IfOk};
ghost use Rattle.ck_code.specs.declared.instr.Instr.TheVariants.{Field, SetField};
ghost use Rattle.machine_world.specs.Scenes.{CanRunIn, CarriesIn};

use ck_code::Step;
use fixed_point::Memory;
use machine_world::{Stop, Then, World, copied, go_on, let_reference_go, reference};
use shred_state::Shred;
use std::alloc::Global;

/// Puts a field in the place of the object on the top; null is a trap.
#[tactic(auto, using(machine_world::proofs::Operands::operands), unfolding(machine_world::specs::Shown::shown))]
#[inline(always)]
pub fn put_field(
    alloc: Global,
    at: &Step,
    shred: &mut Shred,
    world: &World,
    i: u32,
) -> Result<Then, Memory>
    requires is { at.now.instr ≡ Field i }
    requires can { CanRunIn world.now at.now shred.old }
    ensures carries { IfOk result (λ then.
        CarriesIn world.now at.now then shred.old shred.new world.now) }
{
    let object = reference(shred.peek());
    match world.field(object, i) {
        Ok(v) => {
            let v = copied(alloc, v)?;
            let_reference_go(shred.set_top(v));
            Ok(go_on(shred))
        }
        Err(trap) => Ok(Then::Stopped(Stop::Trapped(trap, at.place))),
    }
}

/// Sets a field of the object on the top to the operand beneath it, which stays; null is a trap.
#[tactic(auto, using(machine_world::proofs::Operands::operands), unfolding(machine_world::specs::Shown::shown))]
#[inline(always)]
pub fn set_field(
    alloc: Global,
    at: &Step,
    shred: &mut Shred,
    world: &mut World,
    i: u32,
) -> Result<Then, Memory>
    requires is { at.now.instr ≡ SetField i }
    requires can { CanRunIn world.old at.now shred.old }
    ensures carries { IfOk result (λ then.
        CarriesIn world.old at.now then shred.old shred.new world.new) }
{
    let object = reference(&shred.pop());
    let v = copied(alloc, shred.peek())?;
    match world.set_field(object, i, v) {
        Ok(_old) => Ok(go_on(shred)),
        Err(trap) => Ok(Then::Stopped(Stop::Trapped(trap, at.place))),
    }
}
