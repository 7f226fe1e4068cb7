//! Lines about files, and the listing of a code.
ghost use Rattle.std.specs.Prelude.{◌≡◌, IfOk};
ghost use Rattle.ck_typed.specs.View.{view_program};
ghost use Rattle.code_listing.specs.Listing.{listing_of};
ghost use Rattle.program_answers.specs.Answer.{refusal, refusal_at, acceptance, listing_answer};
ghost use Rattle.program_answers.specs.Codes.{scheme_of};
ghost use Rattle.program_answers.specs.Ends.{EndsAtSink};
ghost use Rattle.command_inputs.specs.Words.{words_of};

use ck_edges::Sink;
use ck_typed::Program;
use code_gen::generate;
use code_listing::listing;
use fixed_point::Memory;
use run_report::Status;
use std::alloc::Global;

/// Refuses a file by one line: its name, and what is wrong.
pub fn refuse<O: Sink>(alloc: Global, name: &str, wrong: &str, out: &mut O) -> Status
    ensures { EndsAtSink O.Sink (refusal name.now wrong.now) out.old out.new result }
{
    let line = match format!(in alloc; "{name}: {wrong}\n") {
        Ok(line) => line,
        Err(error) => return Status::from(Memory::from(error)),
    };
    match out.write(line.as_bytes()) {
        Ok(()) => Status::Refused,
        Err(_) => Status::WriteFault,
    }
}

/// Refuses a file by one line: its name, the line of its fault, and what is wrong there.
pub fn refuse_at<O: Sink>(alloc: Global, name: &str, line: u32, wrong: &str, out: &mut O) -> Status
    ensures { EndsAtSink O.Sink (refusal_at name.now line wrong.now) out.old out.new result }
{
    let text = match format!(in alloc; "{name}:{line}: {wrong}\n") {
        Ok(text) => text,
        Err(error) => return Status::from(Memory::from(error)),
    };
    match out.write(text.as_bytes()) {
        Ok(()) => Status::Refused,
        Err(_) => Status::WriteFault,
    }
}

/// Accepts the files of these names by a line for each.
pub(crate) fn accept<O: Sink>(alloc: Global, names: &[String], out: &mut O) -> Status
    ensures { EndsAtSink O.Sink (acceptance (words_of names.now)) out.old out.new result }
{
    for name in names {
        let line = match format!(in alloc; "{name}: ok\n") {
            Ok(line) => line,
            Err(error) => return Status::from(Memory::from(error)),
        };
        match out.write(line.as_bytes()) {
            Ok(()) => {}
            Err(_) => return Status::WriteFault,
        }
    }
    Status::Done
}

/// Writes the code of a program as a listing.
pub(crate) fn list<O: Sink>(alloc: Global, program: Program, out: &mut O) -> Status
    ensures { EndsAtSink O.Sink (listing_answer (view_program program)) out.old out.new result }
{
    let lines = match listing_of(alloc, program) {
        Ok(lines) => lines,
        Err(memory) => return Status::from(memory),
    };
    match out.write(lines.as_slice()) {
        Ok(()) => Status::Done,
        Err(_) => Status::WriteFault,
    }
}

/// The listing of the code of a program.
fn listing_of(alloc: Global, program: Program) -> Result<Vec<u8>, Memory>
    ensures { IfOk result (λ lines.
        lines.items ≡ listing_of (scheme_of (view_program program))) }
{
    let code = generate(alloc, program)?;
    let mut lines = Vec::new(alloc);
    listing(code.parts(), &mut lines)?;
    Ok(lines)
}
