//! A run, block by block.
ghost use Rattle.std.specs.Prelude.{◌≡◌, ◌+◌, ◌≤◌, length, IfOk};
ghost use Rattle.ck_base.specs.declared.limits.TheConstants.{MAX_FILES, MAX_SAMPLES};
ghost use Rattle.ck_run.specs.Report.{wake_lines};
ghost use Rattle.chuck_vm.specs.Vm.{block_of};
ghost use Rattle.chuck_vm.specs.Wakes.{wakes_meant};
ghost use Rattle.run_report.specs.Blocks.{IsReported};
ghost use Rattle.chuck_vm.specs.Wakes.{names_of};

use crate::report::{Report, add_wakes};
use chuck_vm::{Vm, Wake};
use ck_code::Code;
use fixed_point::Memory;
use std::alloc::Global;

/// A block of a run.
#[derive(Drop)]
pub(crate) struct Block {
    pub(crate) samples: Vec<i16>,
    /// What is reported of it.
    pub(crate) lines: Vec<u8>,
}

/// The machine of a code of files of these names, before its first sample.
pub(crate) fn start(alloc: Global, code: Code, names: &[String]) -> Result<Box<Vm>, Memory>
    requires files { length code.mains ≤ MAX_FILES }
    ensures { IfOk result (λ vm.
        vm.value ≡ record { code = code; names = names_of names.now; samples = 0 }) }
{
    let mut copies = Vec::new(alloc);
    for name in names {
        copies.push(name.clone()?)?;
    }
    let vm = Vm::start(alloc, code, copies)?;
    Ok(Box::new(alloc, vm)?)
}

/// Makes a block of so many samples, and says what is reported of it.
pub(crate) fn next_block(
    alloc: Global,
    vm: Box<Vm>,
    report: Report,
    names: &[String],
    count: u32,
) -> Result<(Box<Vm>, Block), Memory>
    requires few { vm.value.samples + count ≤ MAX_SAMPLES }
    requires names { vm.value.names ≡ names_of names.now }
    ensures vm { IfOk result (λ next.
        next.0.value ≡ record vm.value { samples = vm.value.samples + count }) }
    ensures block { let block = block_of vm.value.code vm.value.samples count in
        IfOk result (λ next. IsReported report (names_of names.now) block next.1) }
{
    let mut samples = Vec::new(alloc);
    let mut text = Vec::new(alloc);
    let mut wakes = Vec::new(alloc);
    let next = Box::into_inner(vm).render(alloc, count, &mut samples, &mut text, &mut wakes)?;
    let vm = Box::new(alloc, next)?;
    let lines = match report {
        Report::Wakes => lines_of(alloc, names, wakes.as_slice())?,
        Report::Text => text,
        Report::Numbers => Vec::new(alloc),
    };
    Ok((vm, Block { samples, lines }))
}

/// The lines of these slices.
fn lines_of(alloc: Global, names: &[String], wakes: &[Wake]) -> Result<Vec<u8>, Memory>
    ensures { IfOk result (λ lines.
        lines.items ≡ wake_lines (names_of names.now) (wakes_meant wakes.now)) }
{
    let mut lines = Vec::new(alloc);
    add_wakes(alloc, names, wakes, &mut lines)?;
    Ok(lines)
}
