//! Random numbers, from the words of the world's generator.
ghost use Rattle.std.specs.Prelude.{◌≡◌, IfOk};
ghost use Rattle.ck_code.specs.declared.instr.Instr.TheVariants.{Native as BuiltIn};
ghost use Rattle.ck_typed.specs.declared.native.Native.TheVariants.{Random2, Random2f, Srandom};
ghost use Rattle.machine_world.specs.Scenes.{CanRunAlone, CarriesIn};

use ck_code::Step;
use ck_values::Value;
use fixed_point::Memory;
use machine_world::{Then, World, float, int, put};
use shred_state::Shred;

/// Puts an int between the two on the top, both among them, in their place.
#[tactic(auto, unfolding(ck_store::specs::Natives::native, machine_world::specs::Shown::shown))]
pub(crate) fn put_random(at: &Step, shred: &mut Shred, world: &mut World) -> Result<Then, Memory>
    requires is { at.now.instr ≡ BuiltIn Random2 }
    requires can { CanRunAlone at.now shred.old }
    ensures carries { IfOk result (λ then.
        CarriesIn world.old at.now then shred.old shred.new world.new) }
{
    let b = int(&shred.pop());
    let a = int(&shred.pop());
    let n = world.draw_int(a, b);
    put(shred, Value::Int(n))
}

/// Puts a float from the smaller of the two on the top, short of the greater, in their place.
#[tactic(auto, unfolding(ck_store::specs::Natives::native, machine_world::specs::Shown::shown))]
pub(crate) fn put_random_fix(
    at: &Step,
    shred: &mut Shred,
    world: &mut World,
) -> Result<Then, Memory>
    requires is { at.now.instr ≡ BuiltIn Random2f }
    requires can { CanRunAlone at.now shred.old }
    ensures carries { IfOk result (λ then.
        CarriesIn world.old at.now then shred.old shred.new world.new) }
{
    let b = float(&shred.pop());
    let a = float(&shred.pop());
    let x = world.draw_fix(a, b);
    put(shred, Value::Float(x))
}

/// Starts the generator anew by the int on the top, in whose place the int 0 comes.
#[tactic(auto, unfolding(ck_store::specs::Natives::native, machine_world::specs::Shown::shown))]
pub(crate) fn seed(at: &Step, shred: &mut Shred, world: &mut World) -> Result<Then, Memory>
    requires is { at.now.instr ≡ BuiltIn Srandom }
    requires can { CanRunAlone at.now shred.old }
    ensures carries { IfOk result (λ then.
        CarriesIn world.old at.now then shred.old shred.new world.new) }
{
    let n = int(&shred.pop());
    world.seed(n);
    put(shred, Value::Int(0))
}
