//! Jumps that are held until the code that they pass stands.
ghost use Rattle.std.specs.Prelude.{◌≡◌, ◌+◌, ◌<◌, [], ◌∷◌, ◌++◌, IfOk, OnOk, All, vec_len, slice_set};
ghost use Rattle.ck_code.specs.declared.instr.Instr.TheVariants.{Jump};
ghost use Rattle.ck_scheme.specs.Scheme.{at};
ghost use Rattle.emit_code.specs.Exits.{written};

use ck_code::{Instr, Step};
use ck_values::Place;
use code_pieces::put;
use fixed_point::Memory;

/// The jump of a break or of a continue, which is written once its loop stands.
#[derive(Clone, Copy)]
pub struct Held {
    /// The place of the jump in the code.
    pub at: usize,
    /// Whether it leaves the loop, as a break does.
    pub leaves: bool,
    /// Where the word stands in the source.
    pub place: Place,
}

/// Room for a jump whose goal isn't known yet, and the place where it stands.
pub(crate) fn hold(code: &mut Vec<Step>, place: Place) -> Result<usize, Memory>
    ensures at { IfOk result (λ i. i ≡ vec_len code.old) }
    ensures code { OnOk result (code.new.items ≡ code.old.items ++ at (Jump 0) place ∷ []) }
    ensures len { OnOk result (vec_len code.new ≡ vec_len code.old + 1) }
{
    let held = code.len();
    put(code, Instr::Jump(0), place)?;
    Ok(held)
}

/// What was held is written.
pub(crate) fn write(code: &mut Vec<Step>, held: usize, instr: Instr, place: Place)
    requires { held < vec_len code.old }
    ensures code { code.new.items ≡ slice_set code.old.items held (at instr place) }
    ensures len { vec_len code.new ≡ vec_len code.old }
{
    code[held] = Step { instr, place };
}

/// The jumps of a loop's breaks and continues are written: they go to `out` and to `again`.
pub(crate) fn write_exits(code: &mut Vec<Step>, held: &[Held], out: usize, again: usize)
    requires { All (λ it. it.at < vec_len code.old) held.now }
    ensures code { code.new.items ≡ written out again held.now code.old.items }
    ensures len { vec_len code.new ≡ vec_len code.old }
{
    for it in held {
        let goal = if it.leaves { out } else { again };
        write(code, it.at, Instr::Jump(goal), it.place);
    }
}
