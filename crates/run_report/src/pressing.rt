//! Runs that are reported block by block, and pressed on a sheet.
ghost use Rattle.std.specs.Prelude.{◌≡◌, ◌≢◌, ◌≤◌, true, false, OnOk, IfOk, length};
ghost use Rattle.ck_base.specs.declared.limits.TheConstants.{MAX_FILES, MAX_SAMPLES};
ghost use Rattle.ck_meaning.specs.Replay.{run_code as run_of};
ghost use Rattle.wav_writer.specs.Wav.{bytes_of_samples};
ghost use Rattle.run_report.specs.declared.report.Report.TheVariants.{Text};
ghost use Rattle.run_report.specs.Answer.{lines_steps, blocks_answer, numbers_answer};
ghost use Rattle.run_report.specs.Answer.{run_answer};
ghost use Rattle.run_report.specs.Ends.{moment_of, EndsSteps, EndsRun, KeepsTold};
ghost use Rattle.chuck_vm.specs.Wakes.{names_of};

use crate::block::{next_block, start};
use crate::cut::Cut;
use crate::report::{Report, tally_lines};
use crate::writing::write_piece;
use chuck_vm::Tally;
use ck_code::Code;
use ck_edges::{Press, Sink};
use fixed_point::Memory;
use std::alloc::Global;
use wav_writer::{header, put_frames};

/// The samples of a block, after each of which its report is written.
const BLOCK: u32 = 4096;

/// The bytes of these samples.
fn bytes_of(alloc: Global, samples: &[i16]) -> Result<Vec<u8>, Memory>
    ensures { IfOk result (λ bytes. bytes.items ≡ bytes_of_samples samples.now) }
{
    let mut bytes = Vec::new(alloc);
    put_frames(samples, &mut bytes)?;
    Ok(bytes)
}

/// Carries out the steps of a block with these samples: its report is written, and where that is the
/// text, its samples are pressed on the open sheet.
fn write_block<O: Sink, P: Press>(
    alloc: Global,
    report: Report,
    lines: &[u8],
    samples: &[i16],
    out: &mut O,
    press: &mut P,
) -> Result<(), Cut>
    requires open { report ≡ Report.Text → P.is_open press.old ≡ true }
    ensures ends { EndsSteps result (lines_steps report lines.now samples.now)
        (moment_of O.Sink P.Press out.old press.old) (moment_of O.Sink P.Press out.new press.new) }
    ensures same_open { P.is_open press.new ≡ P.is_open press.old }
    ensures untouched { report ≢ Report.Text → press.new ≡ press.old }
{
    write_piece(lines, out)?;
    match report {
        Report::Wakes | Report::Numbers => {}
        Report::Text => press.write(bytes_of(alloc, samples)?.as_slice())?,
    }
    Ok(())
}

/// Runs a code for so many samples, and carries out the steps of each block. The numbers of the
/// run.
fn run_blocks<O: Sink, P: Press>(
    alloc: Global,
    report: Report,
    samples: u32,
    names: &[String],
    code: Code,
    out: &mut O,
    press: &mut P,
) -> Result<Tally, Cut>
    requires few { samples ≤ MAX_SAMPLES }
    requires files { length code.mains ≤ MAX_FILES }
    requires open { report ≡ Report.Text → P.is_open press.old ≡ true }
    ensures ends { let run = run_of code in
        EndsRun result
        (blocks_answer report samples (names_of names.now) run (run samples).begun)
        (moment_of O.Sink P.Press out.old press.old) (moment_of O.Sink P.Press out.new press.new) }
    ensures same_open { P.is_open press.new ≡ P.is_open press.old }
    ensures untouched { report ≢ Report.Text → press.new ≡ press.old }
{
    let mut vm = start(alloc, code, names)?;
    for block in 0..samples.div_ceil(BLOCK) {
        let count = BLOCK.min(samples - block * BLOCK);
        let (next, made) = next_block(alloc, vm, report, names, count)?;
        vm = next;
        let (lines, samples) = (made.lines.as_slice(), made.samples.as_slice());
        write_block(alloc, report, lines, samples, out, press)?;
    }
    Ok(vm.tally())
}

/// Runs a code for so many samples on a sheet of this name, which gets a header and all
/// samples; beside it the text is written. The numbers of the run.
fn run_on_sheet<O: Sink, P: Press>(
    alloc: Global,
    samples: u32,
    sheet: &str,
    names: &[String],
    code: Code,
    out: &mut O,
    press: &mut P,
) -> Result<Tally, Cut>
    requires few { samples ≤ MAX_SAMPLES }
    requires files { length code.mains ≤ MAX_FILES }
    requires shut { P.is_open press.old ≡ false }
    ensures ends { let run = run_of code in
        EndsRun result
        (run_answer Text samples sheet.now (names_of names.now) run (run samples).begun)
        (moment_of O.Sink P.Press out.old press.old) (moment_of O.Sink P.Press out.new press.new) }
    ensures shut { OnOk result (P.is_open press.new ≡ false) }
{
    press.begin(sheet)?;
    press.write(&header(samples, 1))?;
    let tally = run_blocks(alloc, Report::Text, samples, names, code, out, press)?;
    press.end()?;
    Ok(tally)
}

/// Runs a code for so many samples, and writes the numbers of the run at once.
fn run_for_numbers<O: Sink, P: Press>(
    alloc: Global,
    samples: u32,
    names: &[String],
    code: Code,
    out: &mut O,
    press: &mut P,
) -> Result<Tally, Cut>
    requires few { samples ≤ MAX_SAMPLES }
    requires files { length code.mains ≤ MAX_FILES }
    ensures ends { let run = run_of code in
        EndsRun result (numbers_answer samples run (run samples).begun)
        (moment_of O.Sink P.Press out.old press.old) (moment_of O.Sink P.Press out.new press.new) }
    ensures untouched { press.new ≡ press.old }
{
    let tally = run_blocks(alloc, Report::Numbers, samples, names, code, out, press)?;
    let lines = tally_lines(alloc, &tally)?;
    out.write(lines.as_slice())?;
    Ok(tally)
}

/// Runs a code for so many samples, and reports it so: its slices, its text beside a sheet of this
/// name, or its numbers. The numbers of the run.
pub fn run_code<O: Sink, P: Press>(
    alloc: Global,
    report: Report,
    samples: u32,
    sheet: &str,
    names: &[String],
    code: Code,
    out: &mut O,
    press: &mut P,
) -> Result<Tally, Cut>
    requires few { samples ≤ MAX_SAMPLES }
    requires files { length code.mains ≤ MAX_FILES }
    requires shut { P.is_open press.old ≡ false }
    ensures ends { let run = run_of code in
        EndsRun result
        (run_answer report samples sheet.now (names_of names.now) run (run samples).begun)
        (moment_of O.Sink P.Press out.old press.old) (moment_of O.Sink P.Press out.new press.new) }
    ensures shut { OnOk result (P.is_open press.new ≡ false) }
    ensures kept { KeepsTold (P.sheets press.old) (P.sheets press.new) }
{
    match report {
        Report::Wakes => run_blocks(alloc, report, samples, names, code, out, press),
        Report::Text => run_on_sheet(alloc, samples, sheet, names, code, out, press),
        Report::Numbers => run_for_numbers(alloc, samples, names, code, out, press),
    }
}
