//! Whole reads and whole writes, over any reader and any writer.
ghost use Rattle.std.specs.Prelude.{◌≡◌, ◌≢◌, ◌≤◌, ◌+◌, ◌↔◌, []};
ghost use Rattle.std.specs.Prelude.{length, OnOk, IfErr, IfSome, IsErrOf};
ghost use Rattle.std.specs.Io.{ReadsAtMost};
ghost use Rattle.std.specs.Io.KnownBytes.{ReadConsumes, Consumes, Appends, IsAtEnd};
ghost use Rattle.std.specs.IoError.{error_kind};
ghost use Rattle.fixed_point.specs.Wanting.{out_of_memory};

use crate::fault::{Failed, ReadEnd};
use fixed_point::Memory;
use std::alloc::AllocError;
use std::io;
use std::io::{ErrorKind, Read, Write};

/// Bytes that one call of the system is asked for.
const PIECE: usize = 8192;

/// A fault of the system as the end of a read: want of memory, or else a failure.
pub(crate) fn end_of(error: &io::Error) -> ReadEnd
    ensures memory { result ≡ ReadEnd.Memory out_of_memory
        ↔ (error_kind error.now ≡ ErrorKind.OutOfMemory) }
    ensures not_long { result ≡ ReadEnd.Long → ⊥ }
{
    if error.kind() == ErrorKind::OutOfMemory {
        // By this kind the system says that an allocation of its own was refused.
        ReadEnd::Memory(Memory::from(AllocError))
    } else {
        ReadEnd::Failed
    }
}

/// One read, tried again where the system interrupts it, 2^64 - 1 times at most.
fn read_piece<R: Read>(reader: &mut R, piece: &mut [u8]) -> io::Result<usize>
    ensures bound { ReadsAtMost result piece.new }
    ensures bytes { ReadConsumes (R.remaining reader.old) (R.remaining reader.new)
        result piece.new }
    ensures tried_again { IfErr result (λ error. error_kind error ≢ ErrorKind.Interrupted) }
{
    for _ in 0..u64::MAX {
        match reader.read(piece) {
            Err(error) if error.kind() == ErrorKind::Interrupted => {}
            end => return end,
        }
    }
    Err(io::Error::from(ErrorKind::TimedOut))
}

/// Takes all that is left in the reader, if it is at most `max` bytes.
///
/// A longer rest is read up to its first `max + 1` bytes. An empty read is the end; a shorter one
/// than was asked for isn't, and is followed by another.
pub(crate) fn read_whole<R: Read>(
    reader: &mut R,
    max: usize,
    into: &mut Vec<u8>,
) -> Result<(), ReadEnd>
    requires { into.old.items ≡ [] }
    ensures whole { OnOk result (IfSome (R.remaining reader.old) (λ left. into.new.items ≡ left)) }
    ensures at_end { OnOk result (IsAtEnd (R.remaining reader.new)) }
    ensures within { OnOk result (length into.new.items ≤ max) }
    ensures long { IsErrOf result ReadEnd.Long → length into.new.items ≡ max + 1 }
    ensures front { IsErrOf result ReadEnd.Long →
        Consumes (R.remaining reader.old) (R.remaining reader.new) into.new.items }
{
    let mut piece = [0u8; PIECE];
    while into.len() <= max {
        let room = (max - into.len()).min(PIECE - 1) + 1;
        let count = read_piece(reader, &mut piece[..room]).map_err(|error| end_of(&error))?;
        if count == 0 {
            return Ok(());
        }
        into.extend_from_slice(&piece[..count])?;
    }
    Err(ReadEnd::Long)
}

/// Has the writer take all of the bytes, by as many writes as it needs.
pub(crate) fn write_whole<W: Write>(writer: &mut W, bytes: &[u8]) -> Result<(), Failed>
    ensures whole { OnOk result
        (Appends (W.contents writer.old) (W.contents writer.new) bytes.now) }
{
    writer.write_all(bytes).map_err(|_| Failed)
}
