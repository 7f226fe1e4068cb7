//! What a command answers over a program.
ghost use Rattle.std.specs.Prelude.{◌≡◌, false, ◌≤◌, OnOk, length};
ghost use Rattle.ck_base.specs.declared.limits.TheConstants.{MAX_FILES, MAX_SAMPLES};
ghost use Rattle.ck_typed.specs.View.{view_program};
ghost use Rattle.command_inputs.specs.Words.{words_of, TakesFiles};
ghost use Rattle.program_answers.specs.Answer.{program_answer, answer_of_program};
ghost use Rattle.program_answers.specs.Ends.{KeepsTold, LeavesPress};
ghost use Rattle.program_answers.specs.Ends.{moment_of, Ends, EndsRun, LeavesTally};

use crate::writing::{accept, list};
use ck_edges::{Press, Sink};
use ck_typed::Program;
use code_gen::generate;
use command_inputs::Command;
use run_report::{Cut, Report, Status, Tally, run_code};
use std::alloc::Global;

/// The samples of the run of a load: a second.
const LOAD_SAMPLES: u32 = 44_100;

/// Answers a command over the program of its files.
pub fn answer_program<O: Sink, P: Press>(
    alloc: Global,
    command: Command,
    sheet: &str,
    names: &[String],
    program: Program,
    out: &mut O,
    press: &mut P,
    tally: &mut Tally,
) -> Status
    requires takes { TakesFiles command (length names.now) }
    requires mains { length (view_program program).mains ≡ length names.now }
    requires shut { P.is_open press.old ≡ false }
    ensures ends { let names = words_of names.now in
        Ends (answer_of_program command sheet.now names (view_program program))
        (moment_of O.Sink P.Press out.old press.old) (moment_of O.Sink P.Press out.new press.new)
        result }
    ensures leaves { LeavesPress P.Press press.old press.new result }
    ensures numbers { let names = words_of names.now in
        let answer = answer_of_program command sheet.now names (view_program program) in
        LeavesTally result answer.tally tally.old tally.new }
{
    match command {
        Command::Check => accept(alloc, names, out),
        Command::Code => list(alloc, program, out),
        Command::Wakes(samples) => run(
            alloc,
            Report::Wakes,
            samples,
            sheet,
            names,
            program,
            out,
            press,
            tally,
        ),
        Command::Render(samples) => run(
            alloc,
            Report::Text,
            samples,
            sheet,
            names,
            program,
            out,
            press,
            tally,
        ),
        Command::Stats(samples) => run(
            alloc,
            Report::Numbers,
            samples,
            sheet,
            names,
            program,
            out,
            press,
            tally,
        ),
        Command::Load(_) => run(
            alloc,
            Report::Numbers,
            LOAD_SAMPLES,
            sheet,
            names,
            program,
            out,
            press,
            tally,
        ),
    }
}

/// Runs a program, and reports it so.
fn run<O: Sink, P: Press>(
    alloc: Global,
    report: Report,
    samples: u32,
    sheet: &str,
    names: &[String],
    program: Program,
    out: &mut O,
    press: &mut P,
    tally: &mut Tally,
) -> Status
    requires few { samples ≤ MAX_SAMPLES }
    requires files { length (view_program program).mains ≤ MAX_FILES }
    requires shut { P.is_open press.old ≡ false }
    ensures ends { let names = words_of names.now in
        Ends (program_answer report samples sheet.now names (view_program program))
        (moment_of O.Sink P.Press out.old press.old) (moment_of O.Sink P.Press out.new press.new)
        result }
    ensures leaves { LeavesPress P.Press press.old press.new result }
    ensures numbers { let names = words_of names.now in
        let answer = program_answer report samples sheet.now names (view_program program) in
        LeavesTally result answer.tally tally.old tally.new }
{
    match run_program(alloc, report, samples, sheet, names, program, out, press) {
        Ok(numbers) => {
            *tally = numbers;
            Status::of_run(tally)
        }
        Err(cut) => cut.status(),
    }
}

/// Runs the code of a program, and reports it so. The numbers of the run.
fn run_program<O: Sink, P: Press>(
    alloc: Global,
    report: Report,
    samples: u32,
    sheet: &str,
    names: &[String],
    program: Program,
    out: &mut O,
    press: &mut P,
) -> Result<Tally, Cut>
    requires few { samples ≤ MAX_SAMPLES }
    requires files { length (view_program program).mains ≤ MAX_FILES }
    requires shut { P.is_open press.old ≡ false }
    ensures ends { let program = view_program program in
        EndsRun result (program_answer report samples sheet.now (words_of names.now) program)
        (moment_of O.Sink P.Press out.old press.old) (moment_of O.Sink P.Press out.new press.new) }
    ensures shut { OnOk result (P.is_open press.new ≡ false) }
    ensures kept { KeepsTold (P.sheets press.old) (P.sheets press.new) }
{
    match generate(alloc, program) {
        Ok(code) => run_code(alloc, report, samples, sheet, names, code, out, press),
        Err(memory) => Err(Cut::Memory(memory)),
    }
}
