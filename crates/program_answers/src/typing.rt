//! Programs that are refused for their types.
ghost use Rattle.std.specs.Prelude.{◌≡◌};
ghost use Rattle.type_table.specs.Answer.{fault_of};
ghost use Rattle.type_table.specs.declared.fault.TypeFault.TheVariants.{Typing};
ghost use Rattle.program_answers.specs.Answer.{type_text, type_refusal};
ghost use Rattle.program_answers.specs.Ends.{EndsAtSink};
ghost use Rattle.command_inputs.specs.Words.{words_of};

use crate::writing::refuse_at;
use chuck_vm::file_name;
use ck_edges::Sink;
use run_report::Status;
use std::alloc::Global;
use type_table::FaultKind;

/// What the line of a fault says of it.
fn text(kind: FaultKind) -> &'static str
    ensures { result.now ≡ type_text kind }
{
    match kind {
        FaultKind::UnknownName => "type UnknownName",
        FaultKind::Duplicate => "type Duplicate",
        FaultKind::Mismatch => "type Mismatch",
        FaultKind::Arguments => "type Arguments",
        FaultKind::NotAssignable => "type NotAssignable",
        FaultKind::NotCallable => "type NotCallable",
        FaultKind::BadClass => "type BadClass",
        FaultKind::BadPlace => "type BadPlace",
    }
}

/// Refuses a program for a fault in this line of the file of this number.
pub fn refuse_types<O: Sink>(
    alloc: Global,
    names: &[String],
    file: u32,
    line: u32,
    kind: FaultKind,
    out: &mut O,
) -> Status
    ensures { let answer = type_refusal (words_of names.now) (fault_of (Typing file line kind)) in
        EndsAtSink O.Sink answer out.old out.new result }
{
    refuse_at(alloc, file_name(names, file), line, text(kind), out)
}
