//! Shreds: one that begins, and one that leaves a function.
ghost use Rattle.std.specs.Prelude.{◌≡◌, [], ◌∷◌, length, IfOk, slice_get};
ghost use Rattle.std.specs.Bool.{OnTrue, OnFalse};
ghost use Rattle.ck_typed.specs.WellFormed.{FoundWhere};
ghost use Rattle.shred_state.specs.Frames.{new_shred, with_values};
ghost use Rattle.machine_world.specs.Shown.{kinds_of};

use crate::fetch::fun_at;
use ck_code::Code;
use ck_values::Value;
use fixed_point::Memory;
use shred_state::Shred;
use std::alloc::Global;

/// A shred that will run this function on its arguments, and which the parent sporked; 0 is none.
#[tactic(auto, using(crate::proofs::Kept::kept))]
pub fn new_shred(
    alloc: Global,
    code: &Code,
    number: u64,
    parent: u64,
    fun: u32,
    args: Vec<Value>,
) -> Result<Shred, Memory>
    requires { FoundWhere (slice_get code.now.funs fun) (λ fn. fn.params ≡ length args.items) }
    ensures { let kinds = kinds_of (slice_get code.now.funs fun) in
        IfOk result (λ shred. shred ≡ new_shred number parent fun kinds args.items) }
{
    let kinds = fun_at(code.parts(), fun).locals.items();
    Ok(Shred::new(alloc, number, parent, fun, args, kinds)?)
}

/// Goes back to the function beneath, and lets the values of the one that runs go; false where
/// there is none, and all stays as it is then.
#[inline(always)]
pub fn leave_function(shred: &mut Shred) -> bool
    ensures left { OnTrue result (shred.old.below ≡ shred.new.top ∷ shred.new.below) }
    ensures first { OnFalse result (shred.old.below ≡ []) }
    ensures kept { shred.new
        ≡ record shred.old { top = shred.new.top; below = shred.new.below } }
    ensures same { OnFalse result (shred.new ≡ shred.old) }
{
    if shred.is_first() {
        return false;
    }
    shed_all(shred);
    shred.leave()
}

// Lets all values of the function that runs go.
fn shed_all(shred: &mut Shred)
    ensures { shred.new ≡ with_values shred.old [] [] }
{
    'shed: while let Some(_v) = shred.shed() {}
}
