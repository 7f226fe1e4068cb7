//! New objects: what its classes do with one, the statements in their braces.
ghost use Rattle.std.specs.Prelude.{◌≡◌, ◌+◌, ◌++◌, ◌∷◌, OnOk, vec_len};
ghost use Rattle.ck_store.specs.Objects.{bodies_within, bodies_of};
ghost use Rattle.ck_scheme.specs.Scheme.{at, bodies_code, bodies_end};
ghost use Rattle.ck_code.specs.declared.instr.Instr.TheVariants.{New};

use ck_code::{Instr, Step};
use ck_typed::Class;
use ck_values::Place;
use code_pieces::put;
use fixed_point::Memory;

/// What a class and its ancestors do with the object on top, the eldest first; so many are looked
/// at.
#[tactic(auto, using(crate::proofs::NewObjects::making))]
fn emit_bodies(
    code: &mut Vec<Step>,
    classes: &[Class],
    most: usize,
    class: u32,
    place: Place,
) -> Result<(), Memory>
    ensures { OnOk result (code.new.items ≡ code.old.items
        ++ bodies_code (bodies_within classes.now most class) place) }
{
    if most == 0 || class == 0 || class as usize >= classes.len() {
        return Ok(());
    }
    let table = &classes[class as usize];
    emit_bodies(code, classes, most - 1, table.parent, place)?;
    if let Some(body) = table.body {
        put(code, Instr::Dup, place)?;
        put(code, Instr::Call(body), place)?;
        put(code, Instr::Drop, place)?;
    }
    Ok(())
}

/// The code of a new object.
#[inline(never)]
#[tactic(auto, using(crate::proofs::NewObjects::making))]
pub(crate) fn emit_new(
    code: &mut Vec<Step>,
    classes: &[Class],
    class: u32,
    place: Place,
) -> Result<(), Memory>
    ensures code { OnOk result (code.new.items ≡ code.old.items
        ++ at (New class) place ∷ bodies_code (bodies_of classes.now class) place) }
    ensures len { OnOk result (vec_len code.new
        ≡ bodies_end (vec_len code.old + 1) (bodies_of classes.now class)) }
{
    put(code, Instr::New(class), place)?;
    emit_bodies(code, classes, classes.len(), class, place)
}
