//! Instructions on arrays.
ghost use Rattle.std.specs.Prelude.{◌≡◌, IfOk};
ghost use Rattle.ck_code.specs.declared.instr.Instr.TheVariants.{Item, SetItem, Append};
ghost use Rattle.machine_world.specs.Scenes.{CanRunIn, CarriesIn};

use ck_code::Step;
use fixed_point::Memory;
use machine_world::{Stop, Then, World, copied, go_on, let_reference_go, reference};
use shred_state::Shred;
use std::alloc::Global;
use value_ops::OpEnd;

/// Puts an item in the place of its array and of the index on top of it, or stops by the trap.
#[tactic(auto, using(machine_world::proofs::Operands::operands), unfolding(machine_world::specs::Shown::shown))]
#[inline(always)]
pub fn put_item(alloc: Global, at: &Step, shred: &mut Shred, world: &World) -> Result<Then, Memory>
    requires is { at.now.instr ≡ Item }
    requires can { CanRunIn world.now at.now shred.old }
    ensures carries { IfOk result (λ then.
        CarriesIn world.now at.now then shred.old shred.new world.now) }
{
    let index = shred.pop();
    let array = reference(shred.peek());
    match world.item(array, &index) {
        Ok(v) => {
            let v = copied(alloc, v)?;
            let_reference_go(shred.set_top(v));
            Ok(go_on(shred))
        }
        Err(trap) => Ok(Then::Stopped(Stop::Trapped(trap, at.place))),
    }
}

/// Sets an item of the array beneath the index on the top to the operand beneath both, which stays,
/// or stops by the trap.
#[tactic(auto, using(machine_world::proofs::Operands::operands), unfolding(machine_world::specs::Shown::shown))]
#[inline(always)]
pub fn set_item(
    alloc: Global,
    at: &Step,
    shred: &mut Shred,
    world: &mut World,
) -> Result<Then, Memory>
    requires is { at.now.instr ≡ SetItem }
    requires can { CanRunIn world.old at.now shred.old }
    ensures carries { IfOk result (λ then.
        CarriesIn world.old at.now then shred.old shred.new world.new) }
{
    let index = shred.pop();
    let array = reference(&shred.pop());
    let v = copied(alloc, shred.peek())?;
    match world.set_item(array, &index, v) {
        Ok(_old) => Ok(go_on(shred)),
        Err(trap) => Ok(Then::Stopped(Stop::Trapped(trap, at.place))),
    }
}

/// Takes the operand on the top to the end of the array beneath it, or stops by the trap.
#[tactic(auto, using(machine_world::proofs::Operands::operands), unfolding(machine_world::specs::Shown::shown))]
#[inline(always)]
pub fn append(at: &Step, shred: &mut Shred, world: &mut World) -> Result<Then, Memory>
    requires is { at.now.instr ≡ Append }
    requires can { CanRunIn world.old at.now shred.old }
    ensures carries { IfOk result (λ then.
        CarriesIn world.old at.now then shred.old shred.new world.new) }
{
    let v = shred.pop();
    let array = reference(shred.peek());
    match world.append(array, v) {
        Ok(()) => Ok(go_on(shred)),
        Err(OpEnd::Trap(trap)) => Ok(Then::Stopped(Stop::Trapped(trap, at.place))),
        Err(OpEnd::Memory(memory)) => Err(memory),
    }
}
