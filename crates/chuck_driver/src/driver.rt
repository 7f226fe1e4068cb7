//! The whole call, from words to a status.
ghost use Rattle.std.specs.Prelude.{◌≡◌, ◌≢◌, ◌⊎◌, ◌↔◌, false, ◌+◌, ◌<◌, ◌≤◌, None, Some, [], ◌∷◌};
ghost use Rattle.std.specs.Prelude.{IfSome, IfOk, All, length, map, slice_get, string_bytes, codes};
ghost use Rattle.ck_base.specs.declared.limits.TheConstants.{MAX_FILE_BYTES};
ghost use Rattle.ck_syntax.specs.Size.{file_size};
ghost use Rattle.ck_syntax.specs.View.{view_file};
ghost use Rattle.command_inputs.specs.Words.{words_of, command_of, TakesFiles};
ghost use Rattle.command_inputs.specs.declared.commands.Command.TheVariants.{Load};
ghost use Rattle.load_text.specs.LoadText.{load_text};
ghost use Rattle.command_inputs.specs.Senses.{contents_of, said, wrong_text};
ghost use Rattle.program_answers.specs.Answer.{refusal, refusal_at};
ghost use Rattle.program_answers.specs.Ends.{KeepsTold, LeavesPress};
ghost use Rattle.program_answers.specs.Ends.{moment_of, Ends, EndsAtSink, LeavesTally};
ghost use Rattle.chuck_driver.specs.Answer.{first_unbuilt, answer_of_trees};
ghost use Rattle.chuck_driver.specs.Unbuilt.{IsFirst, IsUnbuilt};
ghost use Rattle.chuck_driver.specs.Outcome.{whole_call, AnswersWhole, AnswersPart, AnswersFront};
ghost use Rattle.chuck_driver.specs.Outcome.{DoesNothing, CarriesOut, HasReadFault, HasWriteFault};
ghost use Rattle.chuck_driver.specs.Outcome.{LacksFile, StandsAtZero, Answered, Concludes};

use built_forms::is_built;
use check_decls::check;
use ck_edges::{Press, Shelf, Sink};
use ck_syntax::File;
use command_inputs::{
    Command, ReadStop, SourceStop, Wrong, command, file_names, read_files, sheet_name, trees,
};
use fixed_point::Memory;
use load_text::load_text;
use program_answers::{answer_program, refuse, refuse_at, refuse_types};
use run_report::{Status, Tally};
use std::alloc::Global;
use type_table::TypeFault;

/// Carries out the command of these words, over these edges.
///
/// The status says how it ended. What the words answer over the files of the shelf, their whole
/// answer, is a status, a list of steps at the edges, and the numbers of the run that was made;
/// where the shelf tells its files, the clauses say how much of that list was done, and that the
/// numbers were left in `tally`.
pub fn chuckfix<S: Shelf, O: Sink, P: Press>(
    alloc: Global,
    words: &[String],
    shelf: &mut S,
    out: &mut O,
    press: &mut P,
    tally: &mut Tally,
) -> Status
    requires { P.is_open press.old ≡ false }

    // Words that are no command, and nothing else, are a matter of usage: no edge is touched.
    ensures usage { result ≡ Status.Usage ↔ (command_of (words_of words.now) ≡ None) }
    ensures untouched { result ≡ Status.Usage →
        (shelf.new ≡ shelf.old) × (out.new ≡ out.old) × (press.new ≡ press.old) }

    // Only a run that was reported whole leaves its numbers.
    ensures same_tally { result ≢ Status.Done → result ≢ Status.Trapped → tally.new ≡ tally.old }

    // Every other status tells what was done in this call.
    ensures call { let call = whole_call S.Shelf O.Sink P.Press words.now
        shelf.old out.old press.old tally.old shelf.new out.new press.new tally.new in
        record {
          -- The status of the answer, with all of its steps.
          done : result ≡ Status.Done → AnswersWhole Status.Done call;
          refused : result ≡ Status.Refused → AnswersWhole Status.Refused call;
          trapped : result ≡ Status.Trapped → AnswersWhole Status.Trapped call;
          -- A fault comes only from an edge.
          read_fault : result ≡ Status.ReadFault → HasReadFault call;
          write_fault : result ≡ Status.WriteFault → HasWriteFault call;
          -- Then some of the first steps were done.
          none_done : result ≡ Status.ReadFault → DoesNothing call;
          part_done : result ≡ Status.WriteFault → AnswersPart call;
          front_done : result ≡ Status.Memory → AnswersFront call;
          -- A file that is missing leaves no answer, and nothing is done.
          missing : LacksFile call → (result ≡ Status.ReadFault) ⊎ (result ≡ Status.Memory);
          nothing : LacksFile call → DoesNothing call;
          -- Where no edge failed the answer is carried out, unless memory was wanting.
          complete : ¬ HasReadFault call → ¬ HasWriteFault call → CarriesOut result call;
          -- Edges whose counts stand at 0 never give a fault.
          sure : StandsAtZero call → (result ≢ Status.ReadFault) × (result ≢ Status.WriteFault);
        } }

    // What stood at the edges before stays; no sheet stands open but by a failed write or by want
    // of memory.
    ensures same_files { S.files shelf.new ≡ S.files shelf.old }
    ensures kept_text { KeepsTold (O.written out.old) (O.written out.new) }
    ensures kept_sheets { KeepsTold (P.sheets press.old) (P.sheets press.new) }
    ensures shut { result ≢ Status.WriteFault → result ≢ Status.Memory →
        P.is_open press.new ≡ false }
{
    match command(words) {
        Some(command) => carry_out(alloc, command, words, shelf, out, press, tally),
        None => Status::Usage,
    }
}

/// Reads the files of the command of these words, and answers it.
fn carry_out<S: Shelf, O: Sink, P: Press>(
    alloc: Global,
    command: Command,
    words: &[String],
    shelf: &mut S,
    out: &mut O,
    press: &mut P,
    tally: &mut Tally,
) -> Status
    requires command { command_of (words_of words.now) ≡ Some command }
    requires shut { P.is_open press.old ≡ false }
    ensures same_files { S.files shelf.new ≡ S.files shelf.old }
    ensures concludes { let call = whole_call S.Shelf O.Sink P.Press words.now
        shelf.old out.old press.old tally.old shelf.new out.new press.new tally.new in
        Concludes call result }
    ensures leaves { LeavesPress P.Press press.old press.new result }
{
    let sheet = sheet_name(words);
    if let Command::Load(seed) = command {
        return answer_load(alloc, seed, sheet, out, press, tally);
    }
    let names = file_names(command, words);
    let files = match read_files(alloc, names, shelf) {
        Ok(files) => files,
        Err(ReadStop::Long(place)) => return refuse_long(alloc, names, place, out),
        Err(ReadStop::Failed) => return Status::ReadFault,
        Err(ReadStop::Memory(memory)) => return Status::from(memory),
    };
    answer(
        alloc,
        command,
        sheet,
        names,
        files.as_slice(),
        out,
        press,
        tally,
    )
}

/// Answers the load of a seed: its text is its one file.
fn answer_load<O: Sink, P: Press>(
    alloc: Global,
    seed: u32,
    sheet: &str,
    out: &mut O,
    press: &mut P,
    tally: &mut Tally,
) -> Status
    requires shut { P.is_open press.old ≡ false }
    ensures answered { Answered (Load seed) sheet.now (codes "load" ∷ []) (load_text seed ∷ [])
        (moment_of O.Sink P.Press out.old press.old) (moment_of O.Sink P.Press out.new press.new)
        tally.old tally.new result }
    ensures leaves { LeavesPress P.Press press.old press.new result }
{
    match load_file(alloc, seed) {
        Ok((name, text)) => {
            let command = Command::Load(seed);
            answer(alloc, command, sheet, &[name], &[text], out, press, tally)
        }
        Err(memory) => Status::from(memory),
    }
}

/// The file of a load: its name, and the text that a seed gives.
fn load_file(alloc: Global, seed: u32) -> Result<(String, Vec<u8>), Memory>
    ensures name { IfOk result (λ file. string_bytes file.0 ≡ codes "load") }
    ensures text { IfOk result (λ file. file.1.items ≡ load_text seed) }
{
    let name = format!(in alloc; "load")?;
    let mut text = Vec::new(alloc);
    load_text(seed, &mut text)?;
    Ok((name, text))
}

/// Refuses the file at this place, which is too long.
fn refuse_long<O: Sink>(alloc: Global, names: &[String], place: usize, out: &mut O) -> Status
    requires { place < length names.now }
    ensures { IfSome (slice_get names.now place) (λ name.
        EndsAtSink O.Sink (refusal (string_bytes name) (codes "too long")) out.old out.new result) }
{
    refuse(alloc, names[place].as_str(), "too long", out)
}

/// Answers a command over files that were read.
fn answer<O: Sink, P: Press>(
    alloc: Global,
    command: Command,
    sheet: &str,
    names: &[String],
    files: &[Vec<u8>],
    out: &mut O,
    press: &mut P,
    tally: &mut Tally,
) -> Status
    requires takes { TakesFiles command (length names.now) }
    requires all { length files.now ≡ length names.now }
    requires short { All (λ file. length file.items ≤ MAX_FILE_BYTES) files.now }
    requires shut { P.is_open press.old ≡ false }
    ensures answered { Answered command sheet.now (words_of names.now) (contents_of files.now)
        (moment_of O.Sink P.Press out.old press.old) (moment_of O.Sink P.Press out.new press.new)
        tally.old tally.new result }
    ensures leaves { LeavesPress P.Press press.old press.new result }
{
    match trees(alloc, files) {
        Ok(trees) => answer_trees(
            alloc,
            command,
            sheet,
            names,
            trees.as_slice(),
            out,
            press,
            tally,
        ),
        Err(SourceStop::Refused { place, line, wrong }) => {
            refuse_source(alloc, names, place, line, wrong, out)
        }
        Err(SourceStop::Memory(memory)) => Status::from(memory),
    }
}

/// Refuses the file at this place for a fault in this line.
fn refuse_source<O: Sink>(
    alloc: Global,
    names: &[String],
    place: usize,
    line: u32,
    wrong: Wrong,
    out: &mut O,
) -> Status
    requires { place < length names.now }
    ensures { IfSome (slice_get names.now place) (λ name.
        EndsAtSink O.Sink (refusal_at (string_bytes name) line (wrong_text wrong))
        out.old out.new result) }
{
    refuse_at(alloc, names[place].as_str(), line, wrong.text(), out)
}

/// The place of the first file with a form that isn't run yet.
fn first_unbuilt(trees: &[File]) -> Option<usize>
    ensures { IsFirst trees.now (λ names. first_unbuilt names (map view_file trees.now)) result }
{
    for i in 0..trees.len() {
        if !is_built(&trees[i]) {
            return Some(i);
        }
    }
    None
}

/// The same, where the command runs the files.
fn unbuilt(command: Command, trees: &[File]) -> Option<usize>
    ensures { IsUnbuilt command trees.now result }
{
    match command {
        Command::Check => None,
        _ => first_unbuilt(trees),
    }
}

/// Refuses the file at this place, which has a form that isn't run yet.
fn refuse_unbuilt<O: Sink>(alloc: Global, names: &[String], place: usize, out: &mut O) -> Status
    requires { place < length names.now }
    ensures { IfSome (slice_get names.now place) (λ name.
        EndsAtSink O.Sink (refusal (string_bytes name) (codes "not built")) out.old out.new result) }
{
    refuse(alloc, names[place].as_str(), "not built", out)
}

/// Answers a command over the trees of its files.
fn answer_trees<O: Sink, P: Press>(
    alloc: Global,
    command: Command,
    sheet: &str,
    names: &[String],
    trees: &[File],
    out: &mut O,
    press: &mut P,
    tally: &mut Tally,
) -> Status
    requires takes { TakesFiles command (length names.now) }
    requires all { length trees.now ≡ length names.now }
    requires small { All (λ tree. file_size (view_file tree) ≤ MAX_FILE_BYTES + 1) trees.now }
    requires shut { P.is_open press.old ≡ false }
    ensures ends { Ends (answer_of_trees command sheet.now (words_of names.now) (said trees.now))
        (moment_of O.Sink P.Press out.old press.old) (moment_of O.Sink P.Press out.new press.new)
        result }
    ensures leaves { LeavesPress P.Press press.old press.new result }
    ensures numbers { let names = words_of names.now in
        let answer = answer_of_trees command sheet.now names (said trees.now) in
        LeavesTally result answer.tally tally.old tally.new }
{
    match check(alloc, trees) {
        Ok(program) => match unbuilt(command, trees) {
            Some(place) => refuse_unbuilt(alloc, names, place, out),
            None => answer_program(alloc, command, sheet, names, program, out, press, tally),
        },
        Err(TypeFault::Typing { file, line, kind }) => {
            refuse_types(alloc, names, file, line, kind, out)
        }
        Err(TypeFault::Memory(memory)) => Status::from(memory),
    }
}
