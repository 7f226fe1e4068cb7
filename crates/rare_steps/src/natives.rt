//! Built-in calls.
ghost use Rattle.std.specs.Prelude.{◌≡◌, IfOk};
ghost use Rattle.ck_values.specs.Datum.{meant, AText};
ghost use Rattle.ck_code.specs.declared.code.CodeParts.{CodeParts};
ghost use Rattle.ck_code.specs.declared.instr.Instr.TheVariants.{Native as BuiltIn};
ghost use Rattle.ck_store.specs.Operators.{string_in};
ghost use Rattle.ck_store.specs.Store.{IsFitting};
ghost use Rattle.ck_typed.specs.declared.native.Native.TheVariants.{Length, CharAt, Substring, Abs};
ghost use Rattle.ck_typed.specs.declared.native.Native.TheVariants.{Fabs};
ghost use Rattle.machine_world.specs.Scenes.{scene, CanRunIn, CanRunAlone, Carries, CarriesAlone};

use crate::arrays::{clear, put_size};
use crate::events::{broadcast, signal};
use crate::keys::{key, key_where, set_stages};
use crate::random::{put_random, put_random_fix, seed};
use crate::sporks::{put_id, remove};
use ck_base::Text;
use ck_code::Step;
use ck_typed::Native;
use ck_values::Value;
use fixed_point::Memory;
use machine_world::{Acts, Stop, Then, World, float, int, put};
use shred_state::Shred;
use std::alloc::Global;
use value_ops::{OpEnd, char_at, substring};

/// Puts what a built-in call gives in the place of its operands, or stops by its trap.
#[tactic(auto, using(crate::proofs::Carried::arms), unfolding(machine_world::specs::Shown::shown))]
pub(crate) fn call_native(
    alloc: Global,
    at: &Step,
    shred: &mut Shred,
    world: &mut World,
    acts: &mut Acts,
    call: Native,
) -> Result<Then, Memory>
    requires is { at.now.instr ≡ BuiltIn call }
    requires can { CanRunIn world.old at.now shred.old }
    ensures carries { (code : CodeParts) → IfOk result (λ then. Carries code at.now then
        (scene shred.old world.old acts.old) (scene shred.new world.new acts.new)) }
{
    match call {
        Native::Abs => put_magnitude(at, shred),
        Native::Fabs => put_fix_magnitude(at, shred),
        Native::Length => put_length(at, shred),
        Native::CharAt => put_byte(at, shred),
        Native::Substring => put_substring(alloc, at, shred),
        Native::Size => put_size(at, shred, world),
        Native::Clear => clear(at, shred, world),
        Native::ShredId => put_id(at, shred),
        Native::Signal => signal(at, shred, acts),
        Native::Broadcast => broadcast(at, shred, acts),
        Native::Remove => remove(at, shred, acts),
        Native::Random2 => put_random(at, shred, world),
        Native::Random2f => put_random_fix(at, shred, world),
        Native::Srandom => seed(at, shred, world),
        Native::KeyOn => key(at, shred, world, true),
        Native::KeyOff => key(at, shred, world, false),
        Native::KeyOnWhere => key_where(at, shred, world, true),
        Native::KeyOffWhere => key_where(at, shred, world, false),
        Native::SetAdsr => set_stages(at, shred, world),
    }
}

// The string that a value is.
fn string(v: &Value) -> &Text
    requires { IsFitting (string_in (meant v.now)) }
    ensures { meant v.now ≡ AText result.now }
{
    match v {
        Value::Text(text) => text,
        _ => unreachable!(),
    }
}

// Puts an int without its sign in its place; the least one stays.
#[tactic(auto, unfolding(ck_store::specs::Natives::native, machine_world::specs::Shown::shown))]
fn put_magnitude(at: &Step, shred: &mut Shred) -> Result<Then, Memory>
    requires is { at.now.instr ≡ BuiltIn Abs }
    requires can { CanRunAlone at.now shred.old }
    ensures carries { IfOk result (λ then. CarriesAlone at.now then shred.old shred.new) }
{
    let n = int(&shred.pop());
    put(shred, Value::Int(n.wrapping_abs()))
}

// Puts a float without its sign in its place.
#[tactic(auto, unfolding(ck_store::specs::Natives::native, machine_world::specs::Shown::shown))]
fn put_fix_magnitude(at: &Step, shred: &mut Shred) -> Result<Then, Memory>
    requires is { at.now.instr ≡ BuiltIn Fabs }
    requires can { CanRunAlone at.now shred.old }
    ensures carries { IfOk result (λ then. CarriesAlone at.now then shred.old shred.new) }
{
    let x = float(&shred.pop());
    put(shred, Value::Float(x.abs()))
}

// Puts the length of a string in its place.
#[tactic(auto, unfolding(ck_store::specs::Natives::native, machine_world::specs::Shown::shown))]
fn put_length(at: &Step, shred: &mut Shred) -> Result<Then, Memory>
    requires is { at.now.instr ≡ BuiltIn Length }
    requires can { CanRunAlone at.now shred.old }
    ensures carries { IfOk result (λ then. CarriesAlone at.now then shred.old shred.new) }
{
    let text = shred.pop();
    let length = string(&text).bytes().len() as i64;
    put(shred, Value::Int(length))
}

// Puts the byte of a string at an index in the place of both, or stops by the trap.
#[tactic(auto, unfolding(ck_store::specs::Natives::native, machine_world::specs::Shown::shown))]
fn put_byte(at: &Step, shred: &mut Shred) -> Result<Then, Memory>
    requires is { at.now.instr ≡ BuiltIn CharAt }
    requires can { CanRunAlone at.now shred.old }
    ensures carries { IfOk result (λ then. CarriesAlone at.now then shred.old shred.new) }
{
    let index = int(&shred.pop());
    let text = shred.pop();
    match char_at(string(&text), index) {
        Ok(byte) => put(shred, Value::Int(byte)),
        Err(OpEnd::Trap(trap)) => Ok(Then::Stopped(Stop::Trapped(trap, at.place))),
        Err(OpEnd::Memory(memory)) => Err(memory),
    }
}

// Puts so many bytes of a string from an index on in the place of all three, or stops by the trap.
#[tactic(auto, unfolding(ck_store::specs::Natives::native, machine_world::specs::Shown::shown))]
fn put_substring(alloc: Global, at: &Step, shred: &mut Shred) -> Result<Then, Memory>
    requires is { at.now.instr ≡ BuiltIn Substring }
    requires can { CanRunAlone at.now shred.old }
    ensures carries { IfOk result (λ then. CarriesAlone at.now then shred.old shred.new) }
{
    let count = int(&shred.pop());
    let start = int(&shred.pop());
    let text = shred.pop();
    match substring(alloc, string(&text), start, count) {
        Ok(part) => put(shred, Value::Text(part)),
        Err(OpEnd::Trap(trap)) => Ok(Then::Stopped(Stop::Trapped(trap, at.place))),
        Err(OpEnd::Memory(memory)) => Err(memory),
    }
}
