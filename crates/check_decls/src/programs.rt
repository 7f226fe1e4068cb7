//! Whole programs, file by file.
ghost use Rattle.std.specs.Prelude.{◌≡◌, ◌+◌, ◌*◌, ◌^◌, ◌<◌, ◌≤◌, All, length, map, OnOk, IfOk, IfErr};
ghost use Rattle.ck_base.specs.declared.limits.TheConstants.{MAX_FILES, MAX_FILE_TOKENS};
ghost use Rattle.ck_syntax.specs.Size.{file_size};
ghost use Rattle.ck_syntax.specs.View.{view_file};
ghost use Rattle.ck_typed.specs.View.{view_program};
ghost use Rattle.check_decls.specs.Outcomes.{IsPlaced, IsRefused};
ghost use Rattle.check_decls.specs.ProgramTyping as typing;
ghost use Rattle.program_laws.specs.Programs as definition;
ghost use Rattle.program_laws.specs.Programs.{checked};
ghost use Rattle.check_decls.specs.ProgramView.{view_checked};
ghost use Rattle.first_walk.specs.Room.{entries};
ghost use Rattle.type_table.specs.Answer.{gives, fault, IsFault};
ghost use Rattle.fixed_point.specs.Wanting.{out_of_memory};
ghost use Rattle.type_table.specs.declared.fault.TypeFault.TheVariants.{Memory as memory};

use crate::walk::items_typed;
use ck_base::List;
use ck_syntax::File;
use ck_typed::{Program, ProgramParts, TypedFun};
use first_walk::enter_file;
use std::alloc::Global;
use type_table::{Entered, Table, TypeFault, number};

/// What the files so far declare, their functions, and of each the function of its statements.
#[derive(Drop)]
struct Checked {
    table: Box<Table>,
    funs: Vec<TypedFun>,
    mains: Vec<u32>,
}

impl Checked {
    /// No file yet.
    fn none(alloc: Global) -> Result<Checked, TypeFault>
        ensures made { IfOk result (λ c. view_checked c ≡ definition.none_checked) }
        ensures memory { IfErr result (λ why. why ≡ memory out_of_memory) }
    {
        Ok(Checked {
            table: Box::new(alloc, Table::new(alloc)?)?,
            funs: Vec::new(alloc),
            mains: Vec::new(alloc),
        })
    }

    /// Both walks of one file.
    fn add_file(&mut self, alloc: Global, file: u32, raw: &File) -> Result<(), TypeFault>
        requires short { file_size (view_file raw.now) ≤ MAX_FILE_TOKENS }
        requires next { file ≡ length self.old.table.value.files }
        requires built_in { 0 < length self.old.table.value.classes }
        requires room { entries self.old.table.value + 3 * MAX_FILE_TOKENS < 2 ^ 32 }
        ensures checked { OnOk result
            (typing.and_file self.old file raw.now ≡ gives (view_checked self.new)) }
        ensures refused { IsRefused result (typing.and_file self.old file raw.now) }
        // both times that a file is gone over, each of its tokens makes at most one entry
        ensures grown { OnOk result
            (entries self.new.table.value ≤ entries self.old.table.value + 2 * MAX_FILE_TOKENS) }
    {
        let first = number(self.table.classes.len());
        enter_file(alloc, &mut self.table, file, raw)?;
        let walked = items_typed(alloc, &self.table, file, first, raw.items.items())?;
        self.mains.push(self.table.main_of(file))?;
        self.table.settle_all(walked.settled());
        let mut funs = walked.file_funs()?;
        self.funs.append(&mut funs)?;
        Ok(())
    }

    /// All files in their order.
    fn add_files(&mut self, alloc: Global, files: &[File]) -> Result<(), TypeFault>
        requires begun { view_checked self.old ≡ definition.none_checked }
        requires few { length files.now ≤ MAX_FILES }
        requires short { All (λ file. file_size (view_file file) ≤ MAX_FILE_TOKENS) files.now }
        ensures checked { OnOk result
            (typing.and_files self.old files.now ≡ gives (view_checked self.new)) }
        ensures refused { IsRefused result (typing.and_files self.old files.now) }
        ensures few { OnOk result (length self.new.table.value.classes < 2 ^ 32) }
        ensures mains { OnOk result (length self.new.mains.items ≤ MAX_FILES) }
    {
        for file in 0..files.len() as u32 {
            self.add_file(alloc, file, &files[file as usize])?;
        }
        Ok(())
    }

    /// The program of these files.
    fn finish(self, alloc: Global) -> Result<ProgramParts, TypeFault>
        requires few { length self.table.value.classes < 2 ^ 32 }
        requires mains { length self.mains.items ≤ MAX_FILES }
        ensures made { IfOk result
            (λ parts. view_program parts ≡ definition.program_of (view_checked self)) }
        ensures memory { IfErr result (λ why. why ≡ memory out_of_memory) }
    {
        let Checked { table, funs, mains } = self;
        let files = mains.len() as u32;
        let classes = table.finished_classes(alloc)?;
        let Entered { classes, statics } = Box::into_inner(table).finish(classes);
        Ok(ProgramParts {
            files,
            classes,
            funs: List::from_vec(funs),
            statics,
            mains: List::from_vec(mains),
        })
    }
}

/// The typed program of 1 to 64 files, or the first fault of the walk over them.
///
/// Files go in their order, and each is walked twice: its classes, their parents, and its members,
/// functions and file variables are entered, and then its statements, the bodies of its functions
/// and the members of its classes are typed, all in text order. `Typing` has the place of the file
/// among the files, from 0, and the line; the file is one of them. `Memory` comes where memory was
/// wanting. The program is well formed, by its type: typing gives no other.
///
/// Each file is of at most `MAX_FILE_TOKENS` tokens, as one of `MAX_FILE_BYTES` bytes is. So the
/// classes, functions and static variables of all files, the locals of each function, and the
/// fields and slots of each class with its ancestors are few enough for numbers of 32 bits.
pub fn check(alloc: Global, files: &[File]) -> Result<Program, TypeFault>
    requires some { 1 ≤ length files.now }
    requires few { length files.now ≤ MAX_FILES }
    requires short { All (λ file. file_size (view_file file) ≤ MAX_FILE_TOKENS) files.now }
    ensures checked { IfOk result
        (λ program. checked (map view_file files.now) ≡ gives (view_program program)) }
    ensures refused { IfErr result
        (λ why. IsFault why → checked (map view_file files.now) ≡ fault why) }
    ensures placed { IsPlaced result (length files.now) }
{
    let mut checked = Checked::none(alloc)?;
    checked.add_files(alloc, files)?;
    let parts = checked.finish(alloc)?;
    Ok(Program::new(parts))
}
