//! What is reported of a run.
ghost use Rattle.std.specs.Prelude.{◌≡◌, ◌++◌, IfOk, OnOk};
ghost use Rattle.ck_run.specs.Report.{wake_line, trap_lines, wake_lines};
ghost use Rattle.chuck_vm.specs.Wakes.{wake_meant, wakes_meant};
ghost use Rattle.run_report.specs.Blocks.{count_line, tally_lines};
ghost use Rattle.chuck_vm.specs.Wakes.{names_of};

use chuck_vm::{Tally, Wake, trap_line};
use fixed_point::Memory;
use itoa::Buffer;
use std::alloc::Global;

/// What of a run is reported.
#[derive(Clone, Copy, PartialEq, Eq)]
pub enum Report {
    /// A line for each slice, and one for its trap.
    Wakes,
    /// The lines that are printed, and one for each trap.
    Text,
    /// The numbers of the run, at its end.
    Numbers,
}

/// Adds a line for each of these slices, and one for its trap.
pub(crate) fn add_wakes(
    alloc: Global,
    names: &[String],
    wakes: &[Wake],
    lines: &mut Vec<u8>,
) -> Result<(), Memory>
    ensures { OnOk result (lines.new.items
        ≡ lines.old.items ++ wake_lines (names_of names.now) (wakes_meant wakes.now)) }
{
    for wake in wakes {
        add_wake(*wake, lines)?;
        add_trap(alloc, names, *wake, lines)?;
    }
    Ok(())
}

/// Adds the line of a slice. Runs of many slices are mostly made of it, so its digits go straight to
/// the lines.
fn add_wake(wake: Wake, lines: &mut Vec<u8>) -> Result<(), Memory>
    ensures { OnOk result (lines.new.items ≡ lines.old.items ++ wake_line (wake_meant wake)) }
{
    let mut digits = Buffer::new();
    lines.extend_from_slice(digits.format(wake.at).as_bytes())?;
    lines.extend_from_slice(b" ")?;
    lines.extend_from_slice(digits.format(wake.shred).as_bytes())?;
    lines.extend_from_slice(b"\n")?;
    Ok(())
}

/// Adds the line of a slice's trap, where it stopped by one.
fn add_trap(alloc: Global, names: &[String], wake: Wake, lines: &mut Vec<u8>) -> Result<(), Memory>
    ensures { let wake = wake_meant wake in
        OnOk result (lines.new.items
        ≡ lines.old.items ++ trap_lines (names_of names.now) wake wake.trap) }
{
    if wake.trap.is_some() {
        let line = trap_line(alloc, names, wake)?;
        lines.extend_from_slice(line.as_bytes())?;
    }
    Ok(())
}

/// A line for each number of a run.
pub(crate) fn tally_lines(alloc: Global, tally: &Tally) -> Result<Vec<u8>, Memory>
    ensures { IfOk result (λ lines. lines.items ≡ tally_lines tally.now) }
{
    let mut lines = Vec::new(alloc);
    add_count("samples", tally.samples, &mut lines)?;
    add_count("wakes", tally.wakes, &mut lines)?;
    add_count("traps", tally.traps, &mut lines)?;
    add_count("shreds", tally.shreds, &mut lines)?;
    add_count("made", tally.made, &mut lines)?;
    add_count("instructions", tally.instructions, &mut lines)?;
    Ok(lines)
}

/// Adds the line of a number.
fn add_count(name: &str, count: u64, lines: &mut Vec<u8>) -> Result<(), Memory>
    ensures { OnOk result (lines.new.items ≡ lines.old.items ++ count_line name.now count) }
{
    let mut digits = Buffer::new();
    lines.extend_from_slice(name.as_bytes())?;
    lines.extend_from_slice(b" ")?;
    lines.extend_from_slice(digits.format(count).as_bytes())?;
    lines.extend_from_slice(b"\n")?;
    Ok(())
}
