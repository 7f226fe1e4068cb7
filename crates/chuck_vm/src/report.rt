//! The reports of slices.
ghost use Rattle.std.specs.Prelude.{◌≡◌, ◌∷◌, [], ◌++◌, OnOk, OnErr, IfOk, string_bytes};
ghost use Rattle.ck_run.specs.Report.{name_of, trap_lines};
ghost use Rattle.ck_run.specs.Told.{AddsFront};
ghost use Rattle.chuck_vm.specs.Wakes.{names_of, trap_meant, wake_meant, wakes_meant};

use crate::wake::{TrapAt, Wake};
use fixed_point::Memory;
use std::alloc::Global;

/// The name of a file by its number; an unknown number has none.
pub fn file_name(names: &[String], file: u32) -> &str
    ensures { result.now ≡ name_of (names_of names.now) file }
{
    match names.get(file as usize) {
        Some(name) => name.as_str(),
        None => "",
    }
}

/// The line of a slice that trapped, where the files have these names; that of another slice is
/// empty.
pub fn trap_line(alloc: Global, names: &[String], wake: Wake) -> Result<String, Memory>
    ensures { let meant = wake_meant wake in
        IfOk result (λ line. string_bytes line
        ≡ trap_lines (names_of names.now) meant meant.trap) }
{
    let Some(at) = wake.trap else {
        return Ok(String::new(alloc));
    };
    let name = file_name(names, at.place.file);
    Ok(format!(in alloc;
        "trap {} shred {} sample {} {name}:{}\n",
        at.trap.name(),
        wake.shred,
        wake.at,
        at.place.line
    )?)
}

/// Notes a slice that ran, and reports it in the text where it trapped. Most slices don't, and make
/// no line.
pub(crate) fn note(
    alloc: Global,
    names: &[String],
    wake: Wake,
    text: &mut Vec<u8>,
    wakes: &mut Vec<Wake>,
) -> Result<(), Memory>
    ensures text { let meant = wake_meant wake in
        OnOk result (text.new.items
        ≡ text.old.items ++ trap_lines (names_of names.now) meant meant.trap) }
    ensures wakes { OnOk result (wakes_meant wakes.new.items
        ≡ wakes_meant wakes.old.items ++ wake_meant wake ∷ []) }
    ensures text_front { let meant = wake_meant wake in
        OnErr result (AddsFront (trap_lines (names_of names.now) meant meant.trap)
        text.old.items text.new.items) }
    ensures wakes_front { OnErr result (AddsFront (wake_meant wake ∷ [])
        (wakes_meant wakes.old.items) (wakes_meant wakes.new.items)) }
{
    wakes.push(wake)?;
    if wake.trap.is_none() {
        return Ok(());
    }
    let line = trap_line(alloc, names, wake)?;
    text.extend_from_slice(line.as_bytes())?;
    Ok(())
}
