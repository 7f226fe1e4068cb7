//! Reading the sources of all files of a command.
ghost use Rattle.std.specs.Prelude.{◌≡◌, ◌≤◌, All, Err, IfOk, length};
ghost use Rattle.ck_base.specs.declared.limits.TheConstants.{MAX_FILE_BYTES};
ghost use Rattle.command_inputs.specs.Sense.{AllSay};
ghost use Rattle.command_inputs.specs.Senses.{FirstRefused, contents_of, said, wrong_text};

use crate::sense::{Sense, Wrong, read_source};
use ck_syntax::File;
use fixed_point::Memory;
use std::alloc::{AllocFailed, Global};

/// Why the files of a command don't all have trees.
#[derive(Clone, Copy, PartialEq, Eq)]
pub enum SourceStop {
    /// The first file that is refused stands at this place; the line of its fault, and what is
    /// wrong there.
    Refused {
        place: usize,
        line: u32,
        wrong: Wrong,
    },
    /// There was not enough memory.
    Memory(Memory),
}

impl From<Memory> for SourceStop {
    ghost use Rattle.fixed_point.specs.Wanting.{out_of_memory};
    ghost use Rattle.command_inputs.specs.declared.sources.SourceStop.{SourceStop};

    ghost from_gives = { λ _ stop. stop ≡ SourceStop.Memory out_of_memory };

    fn from(memory: Memory) -> Self {
        SourceStop::Memory(memory)
    }
}

impl<T: Drop> From<AllocFailed<T>> for SourceStop {
    ghost use Rattle.fixed_point.specs.Wanting.{out_of_memory};
    ghost use Rattle.command_inputs.specs.declared.sources.SourceStop.{SourceStop};

    ghost from_gives = { λ _ stop. stop ≡ SourceStop.Memory out_of_memory };

    fn from(error: AllocFailed<T>) -> Self {
        SourceStop::Memory(Memory::from(error))
    }
}

/// The trees of these files in order. The first that is refused ends it.
pub fn trees(alloc: Global, files: &[Vec<u8>]) -> Result<Vec<File>, SourceStop>
    requires { All (λ file. length file.items ≤ MAX_FILE_BYTES) files.now }
    ensures say { IfOk result (λ trees. AllSay (contents_of files.now) (said trees.items)) }
    ensures count { IfOk result (λ trees. length trees.items ≡ length files.now) }
    ensures refused { (place line : _) (wrong : _)
        → result ≡ Err (SourceStop.Refused place line wrong)
        → FirstRefused (contents_of files.now) place line (wrong_text wrong) }
{
    let mut trees = Vec::new(alloc);
    for (place, file) in files.iter().enumerate() {
        match read_source(alloc, file.as_slice())? {
            Sense::Tree(tree) => trees.push(tree)?,
            Sense::Refused { line, wrong } => {
                return Err(SourceStop::Refused { place, line, wrong });
            }
        }
    }
    Ok(trees)
}
