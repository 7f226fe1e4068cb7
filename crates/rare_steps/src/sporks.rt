//! Shreds: who one is, and children that are sporked.
ghost use Rattle.std.specs.Prelude.{◌≡◌, ◌∷◌, [], ◌-◌, ◌^◌, ◌<◌, slice_get, MatchResult};
ghost use Rattle.std.specs.Prelude.{IfOk, OnOk};
ghost use Rattle.ck_values.specs.declared.value.Value.TheVariants.{Shred as Number};
ghost use Rattle.ck_values.specs.Datum.{meant};
ghost use Rattle.ck_code.specs.declared.code.CodeParts.{CodeParts};
ghost use Rattle.ck_code.specs.declared.instr.Instr.TheVariants.{Spork, SporkVirtual};
ghost use Rattle.ck_code.specs.declared.instr.Instr.TheVariants.{Native as BuiltIn};
ghost use Rattle.ck_code.specs.Machine.{taken};
ghost use Rattle.ck_store.specs.Shreds.{shred_of};
ghost use Rattle.ck_store.specs.Store.{Gives, Fails, IsFitting};
ghost use Rattle.ck_typed.specs.declared.native.Native.TheVariants.{ShredId, Remove};
ghost use Rattle.ck_typed.specs.WellFormed.{FoundWhere};
ghost use Rattle.machine_world.specs.declared.course.Then.TheVariants.{GoesOn};
ghost use Rattle.machine_world.specs.Scenes.{scene, CanRun, CanRunAlone, Carries, CarriesAlone};
ghost use Rattle.machine_world.specs.Shown.{operands_of};
ghost use Rattle.machine_world.specs.Steps.{next_standing};
ghost use Rattle.machine_world.specs.Worlds.{Parts};

use crate::makings::take_operands;
use ck_code::{CodeParts, Step};
use ck_values::{Trap, Value};
use fixed_point::Memory;
use machine_world::{Act, Acts, Stop, Then, World, fun_at, go_on, int, put, reference};
use shred_state::Shred;
use std::alloc::Global;

/// Puts the shred that runs on the top.
pub(crate) fn put_me(shred: &mut Shred) -> Result<Then, Memory>
    requires { shred.old.top.place < 2 ^ 64 - 1 }
    ensures then { IfOk result (λ then. then ≡ GoesOn) }
    ensures put { let me = Number shred.old.number in let top = shred.old.top in
        OnOk result (shred.new ≡ next_standing shred.old top.locals (me ∷ top.operands)) }
{
    let me = shred.id();
    put(shred, Value::Shred(me))
}

/// Sporks a child that will run a function, whose arguments are the topmost operands, and puts it
/// in their place, as a spork of it does at the place of the instruction; it is a trap where no turn
/// is left, or where as many were sporked at this sample as may be.
pub(crate) fn spork(
    alloc: Global,
    code: &CodeParts,
    at: &Step,
    shred: &mut Shred,
    world: &mut World,
    acts: &mut Acts,
    fun: u32,
) -> Result<Then, Memory>
    requires arguments { FoundWhere (slice_get code.now.funs fun)
        (λ fn. IsFitting (taken fn.params [] (operands_of shred.old))) }
    requires place { shred.old.top.place < 2 ^ 64 - 1 }
    ensures carries { let spork = record at.now { instr = Spork fun } in
        IfOk result (λ then. Carries code.now spork then
        (scene shred.old world.old acts.old) (scene shred.new world.new acts.new)) }
{
    if !shred.spend() {
        return Ok(Then::Stopped(Stop::Trapped(Trap::Turns, at.place)));
    }
    let id = match world.spork() {
        Ok(id) => id,
        Err(trap) => return Ok(Then::Stopped(Stop::Trapped(trap, at.place))),
    };
    let params = fun_at(code, fun).params as usize;
    let args = take_operands(alloc, shred, params)?;
    acts.push(Act::Spork { id, fun, args })?;
    shred.push(Value::Shred(id))?;
    Ok(go_on(shred))
}

/// Sporks a child that will run the function in a slot of the object that is the deepest of the n
/// topmost operands; null is a trap.
pub(crate) fn spork_virtual(
    alloc: Global,
    code: &CodeParts,
    at: &Step,
    shred: &mut Shred,
    world: &mut World,
    acts: &mut Acts,
    slot: u32,
    n: usize,
) -> Result<Then, Memory>
    requires is { at.now.instr ≡ SporkVirtual slot n }
    requires can { CanRun code.now at.now (scene shred.old world.old acts.old) }
    ensures carries { IfOk result (λ then. Carries code.now at.now then
        (scene shred.old world.old acts.old) (scene shred.new world.new acts.new)) }
{
    let receiver = reference(shred.operand(n - 1));
    match world.method(code, receiver, slot) {
        Ok(fun) => spork(alloc, code, at, shred, world, acts, fun),
        Err(trap) => Ok(Then::Stopped(Stop::Trapped(trap, at.place))),
    }
}

// The number of the shred that a value means; null is a trap.
#[tactic(auto, unfolding(ck_store::specs::Shreds::shred_of))]
fn shred_number(v: &Value) -> Result<u64, Trap>
    requires { IsFitting (shred_of (meant v.now)) }
    ensures { MatchResult result
        (λ number. shred_of (meant v.now) ≡ Gives number)
        (λ trap. shred_of (meant v.now) ≡ Fails trap) }
{
    match v {
        Value::Shred(number) => {
            if *number == 0 {
                return Err(Trap::NullPointer);
            }
            Ok(*number)
        }
        _ => unreachable!(),
    }
}

/// Puts the number of a shred in its place, as an int of 64 bits; null is a trap.
#[tactic(auto, unfolding(ck_store::specs::Natives::native, machine_world::specs::Shown::shown))]
pub(crate) fn put_id(at: &Step, shred: &mut Shred) -> Result<Then, Memory>
    requires is { at.now.instr ≡ BuiltIn ShredId }
    requires can { CanRunAlone at.now shred.old }
    ensures carries { IfOk result (λ then. CarriesAlone at.now then shred.old shred.new) }
{
    match shred_number(&shred.pop()) {
        Ok(number) => put(shred, Value::Int(number.cast_signed())),
        Err(trap) => Ok(Then::Stopped(Stop::Trapped(trap, at.place))),
    }
}

/// Ends the shred whose number is on the top, once the slice stops; the number stays.
#[tactic(auto, unfolding(ck_store::specs::Natives::native, machine_world::specs::Shown::shown))]
pub(crate) fn remove(at: &Step, shred: &mut Shred, acts: &mut Acts) -> Result<Then, Memory>
    requires is { at.now.instr ≡ BuiltIn Remove }
    requires can { CanRunAlone at.now shred.old }
    ensures carries { (code : CodeParts) (world : Parts) → IfOk result (λ then. Carries code at.now
        then (scene shred.old world acts.old) (scene shred.new world acts.new)) }
{
    let number = int(&shred.pop());
    acts.push(Act::Remove(number))?;
    put(shred, Value::Int(number))
}
