//! Instructions that make objects and arrays.
ghost use Rattle.std.specs.Prelude.{◌≡◌, ◌≤◌, List, IfOk, OnOk, length, take, drop, reverse};
ghost use Rattle.ck_code.specs.declared.instr.Instr.TheVariants.{New, Row, Grid};
ghost use Rattle.machine_world.specs.declared.acts.Act.{Act};
ghost use Rattle.machine_world.specs.Scenes.{scene, CanRun, CanRunIn, Carries, CarriesIn};
ghost use Rattle.rare_steps.specs.Rare.{literal};
ghost use Rattle.shred_state.specs.Frames.{with_operands};

use ck_base::List;
use ck_code::{CodeParts, Step};
use ck_values::{Elem, Value};
use fixed_point::Memory;
use machine_world::{Stop, Then, World, go_on, int, put};
use shred_state::Shred;
use std::alloc::Global;
use value_ops::OpEnd;

/// Makes an object of a class and puts it on the top; it is a trap where as many were made as may
/// be.
pub(crate) fn make(
    alloc: Global,
    code: &CodeParts,
    at: &Step,
    shred: &mut Shred,
    world: &mut World,
    class: u32,
) -> Result<Then, Memory>
    requires is { at.now.instr ≡ New class }
    requires can { (acts : List Act) × CanRun code.now at.now (scene shred.old world.old acts) }
    ensures carries { (acts : List Act) → IfOk result (λ then. Carries code.now at.now then
        (scene shred.old world.old acts) (scene shred.new world.new acts)) }
{
    match world.make(alloc, code, class) {
        Ok(object) => put(shred, Value::Ref(object)),
        Err(OpEnd::Trap(trap)) => Ok(Then::Stopped(Stop::Trapped(trap, at.place))),
        Err(OpEnd::Memory(memory)) => Err(memory),
    }
}

/// Puts an array of so many first values in the place of its size, or stops by the trap.
pub(crate) fn make_row(
    alloc: Global,
    at: &Step,
    shred: &mut Shred,
    world: &mut World,
    elem: Elem,
) -> Result<Then, Memory>
    requires is { at.now.instr ≡ Row elem }
    requires can { CanRunIn world.old at.now shred.old }
    ensures carries { IfOk result (λ then.
        CarriesIn world.old at.now then shred.old shred.new world.new) }
{
    let size = int(&shred.pop());
    match world.make_row(alloc, elem, size) {
        Ok(array) => put(shred, Value::Ref(array)),
        Err(OpEnd::Trap(trap)) => Ok(Then::Stopped(Stop::Trapped(trap, at.place))),
        Err(OpEnd::Memory(memory)) => Err(memory),
    }
}

/// Puts an array of arrays in the place of its two sizes, or stops by the trap.
pub(crate) fn make_grid(
    alloc: Global,
    at: &Step,
    shred: &mut Shred,
    world: &mut World,
    elem: Elem,
) -> Result<Then, Memory>
    requires is { at.now.instr ≡ Grid elem }
    requires can { CanRunIn world.old at.now shred.old }
    ensures carries { IfOk result (λ then.
        CarriesIn world.old at.now then shred.old shred.new world.new) }
{
    let columns = int(&shred.pop());
    let rows = int(&shred.pop());
    match world.make_grid(alloc, elem, rows, columns) {
        Ok(array) => put(shred, Value::Ref(array)),
        Err(OpEnd::Trap(trap)) => Ok(Then::Stopped(Stop::Trapped(trap, at.place))),
        Err(OpEnd::Memory(memory)) => Err(memory),
    }
}

/// Puts an array of the topmost operands in their place, the deepest first; it is a trap where as
/// many objects were made as may be.
pub(crate) fn make_array(
    alloc: Global,
    at: &Step,
    shred: &mut Shred,
    world: &mut World,
    elem: Elem,
    two: bool,
    n: usize,
) -> Result<Then, Memory>
    requires is { at.now.instr ≡ literal elem two n }
    requires can { CanRunIn world.old at.now shred.old }
    ensures carries { IfOk result (λ then.
        CarriesIn world.old at.now then shred.old shred.new world.new) }
{
    let items = take_operands(alloc, shred, n)?;
    match world.make_array(elem, two, items) {
        Ok(array) => {
            shred.push(Value::Ref(array))?;
            Ok(go_on(shred))
        }
        Err(OpEnd::Trap(trap)) => Ok(Then::Stopped(Stop::Trapped(trap, at.place))),
        Err(OpEnd::Memory(memory)) => Err(memory),
    }
}

/// Takes the topmost operands, the deepest first.
pub(crate) fn take_operands(
    alloc: Global,
    shred: &mut Shred,
    n: usize,
) -> Result<List<Value>, Memory>
    requires { n ≤ length shred.old.top.operands }
    ensures taken { IfOk result (λ values. values ≡ reverse (take n shred.old.top.operands)) }
    ensures left { OnOk result
        (shred.new ≡ with_operands shred.old (drop n shred.old.top.operands)) }
{
    let mut values = Vec::with_capacity(alloc, n)?;
    let mut left = n;
    'operands: while left > 0 {
        values.push(shred.pop())?;
        left -= 1;
    }
    values.reverse();
    Ok(List::from_vec(values))
}
