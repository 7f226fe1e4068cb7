//! What comes after an instruction.
ghost use Rattle.std.specs.Prelude.{◌≡◌, ◌∷◌, ◌-◌, ◌^◌, ◌<◌, IfOk, OnOk};
ghost use Rattle.machine_world.specs.declared.course.Course.TheVariants.{Ahead};
ghost use Rattle.machine_world.specs.declared.course.Then.TheVariants.{GoesOn};
ghost use Rattle.shred_state.specs.Frames.{Standing};
ghost use Rattle.machine_world.specs.Steps.{next_standing, joined, IsAhead};

use ck_values::{Place, Ref, Trap, Value};
use fixed_point::Memory;
use shred_state::Shred;

/// Why a slice stops.
#[derive(Clone, Copy, PartialEq, Eq)]
pub enum Stop {
    /// The shred goes on at this time, in samples.
    At(i64),
    /// The shred goes on when this event is signalled.
    On(Ref),
    /// The first function has ended, or the shred has by its own wish.
    Ended,
    /// The shred trapped at this place.
    Trapped(Trap, Place),
}

/// What comes after an instruction.
#[derive(Clone, Copy)]
pub enum Then {
    /// The function that runs goes on.
    GoesOn,
    /// Another function goes on.
    Moves,
    /// The slice stops.
    Stopped(Stop),
}

/// What comes after an instruction, where the stop is told apart: so small an answer stays in a
/// register from one instruction to the next, and so does the place of the next one.
#[derive(Clone, Copy)]
pub enum Course {
    /// The function that runs goes on with the next instruction.
    Ahead,
    /// It goes on where the shred says.
    Apart,
    /// Another function goes on.
    Elsewhere,
    /// The slice stops.
    Over,
}

/// Tells the stop apart; it stays as it is where the slice goes on.
#[inline(always)]
pub fn parted(then: Then, stop: &mut Stop) -> Course
    ensures then { joined result stop.new ≡ then }
    ensures ahead { (old new : Standing) → IsAhead result old new }
{
    match then {
        Then::GoesOn => Course::Apart,
        Then::Moves => Course::Elsewhere,
        Then::Stopped(reason) => {
            *stop = reason;
            Course::Over
        }
    }
}

/// Puts an operand on the top, and goes on to the next instruction.
#[inline(always)]
pub fn put(shred: &mut Shred, v: Value) -> Result<Then, Memory>
    requires { shred.old.top.place < 2 ^ 64 - 1 }
    ensures then { IfOk result (λ then. then ≡ GoesOn) }
    ensures put { let top = shred.old.top in OnOk result
        (shred.new ≡ next_standing shred.old top.locals (v ∷ top.operands)) }
{
    shred.push(v)?;
    Ok(go_on(shred))
}

/// The same from the place where the shred stands.
#[inline(always)]
pub fn put_from(shred: &mut Shred, here: usize, v: Value) -> Result<Course, Memory>
    requires here { here ≡ shred.old.top.place }
    requires place { here < 2 ^ 64 - 1 }
    ensures ahead { IfOk result (λ course. course ≡ Ahead) }
    ensures put { let top = shred.old.top in OnOk result
        (shred.new ≡ next_standing shred.old top.locals (v ∷ top.operands)) }
{
    shred.push(v)?;
    Ok(go_on_from(shred, here))
}

/// Goes on to the next instruction, from the place where the shred stands.
#[inline(always)]
pub fn go_on_from(shred: &mut Shred, here: usize) -> Course
    requires here { here ≡ shred.old.top.place }
    requires place { here < 2 ^ 64 - 1 }
    ensures ahead { result ≡ Ahead }
    ensures next { let top = shred.old.top in
        shred.new ≡ next_standing shred.old top.locals top.operands }
{
    shred.go_on_from(here);
    Course::Ahead
}

/// Goes on to the next instruction.
#[inline(always)]
pub fn go_on(shred: &mut Shred) -> Then
    requires { shred.old.top.place < 2 ^ 64 - 1 }
    ensures then { result ≡ GoesOn }
    ensures next { let top = shred.old.top in
        shred.new ≡ next_standing shred.old top.locals top.operands }
{
    shred.go_on();
    Then::GoesOn
}
