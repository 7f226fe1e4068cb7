//! Reading the files of a command.
ghost use Rattle.ck_base.specs.declared.limits.TheConstants.{MAX_FILE_BYTES};
ghost use Rattle.std.specs.Prelude.{◌≡◌, ◌<◌, ◌≤◌, All, ℕ, IfSome, IfOk, map, length, slice_get};
ghost use Rattle.std.specs.Prelude.{string_bytes};
ghost use Rattle.command_inputs.specs.Words.{words_of};
ghost use Rattle.command_inputs.specs.Reading.{found_in, Contents, TooLong};
ghost use Rattle.command_inputs.specs.Reading.{HasFaultAmong};

use ck_base::limits::MAX_FILE_BYTES;
use ck_edges::{ReadEnd, Shelf};
use fixed_point::Memory;
use std::alloc::{AllocFailed, Global};

/// Why the files of a command weren't all read.
#[derive(Clone, Copy, PartialEq, Eq)]
pub enum ReadStop {
    /// The file at this place is too long.
    Long(usize),
    /// A file couldn't be read.
    Failed,
    /// There was not enough memory.
    Memory(Memory),
}

impl<T: Drop> From<AllocFailed<T>> for ReadStop {
    ghost use Rattle.fixed_point.specs.Wanting.{out_of_memory};
    ghost use Rattle.command_inputs.specs.declared.reading.ReadStop.{ReadStop};

    ghost from_gives = { λ _ stop. stop ≡ ReadStop.Memory out_of_memory };

    fn from(error: AllocFailed<T>) -> Self {
        ReadStop::Memory(Memory::from(error))
    }
}

/// Reads the files of these names in order. The first that is too long, or can't be read, ends it.
pub fn read_files<S: Shelf>(
    alloc: Global,
    names: &[String],
    shelf: &mut S,
) -> Result<Vec<Vec<u8>>, ReadStop>
    ensures same_files { S.files shelf.new ≡ S.files shelf.old }
    ensures all { IfOk result (λ files. length files.items ≡ length names.now) }
    ensures short { IfOk result (λ files.
        All (λ file. length file.items ≤ MAX_FILE_BYTES) files.items) }
    ensures found { IfOk result (λ files. IfSome (S.files shelf.old) (λ told.
        found_in told (words_of names.now) ≡ Contents (map (λ file. file.items) files.items))) }
    ensures long { (i : ℕ) → result ≡ Err (ReadStop.Long i) → (i < length names.now)
        × IfSome (S.files shelf.old) (λ told. IfSome (slice_get names.now i) (λ name.
        found_in told (words_of names.now) ≡ TooLong (string_bytes name))) }
    ensures failed { result ≡ Err ReadStop.Failed → HasFaultAmong (S.files shelf.old)
        (words_of names.now) (S.read_faults shelf.old) (S.read_faults shelf.new) }
{
    let mut files = Vec::new(alloc);
    for (place, name) in names.iter().enumerate() {
        let mut bytes = Vec::new(alloc);
        match shelf.read(name.as_str(), MAX_FILE_BYTES, &mut bytes) {
            Ok(()) => {}
            Err(ReadEnd::Long) => return Err(ReadStop::Long(place)),
            Err(ReadEnd::Failed) => return Err(ReadStop::Failed),
            Err(ReadEnd::Memory(memory)) => return Err(ReadStop::Memory(memory)),
        }
        files.push(bytes)?;
    }
    Ok(files)
}
