//! The chunks of a RIFF file.

ghost use Rattle.std.specs.Prelude.{◌≡◌, ◌%◌, ◌<◌, length, drop, MatchOption};
ghost use Rattle.sample_buf.specs.Chunks.{IsRiff, IsNoRiff, HasHead};

use byteorder::{ByteOrder, LittleEndian};

/// The bytes of the chunks of a RIFF WAVE file, or none where the file is no such one.
pub(crate) fn riff_chunks(file: &[u8]) -> Option<&[u8]>
    ensures { MatchOption result (IsNoRiff file.now) (λ chunks. IsRiff file.now chunks.now) }
{
    let (_, behind) = file.strip_prefix(b"RIFF".as_slice())?.split_at_checked(4)?;
    behind.strip_prefix(b"WAVE".as_slice())
}

/// The head of a chunk, and the bytes behind it.
#[derive(Clone, Copy)]
pub(crate) struct Head<'a> {
    pub(crate) name: &'a [u8],
    pub(crate) size: u32,
    pub(crate) behind: &'a [u8],
}

impl<'a> Head<'a> {
    /// The head at the front, or none where there are fewer than its eight bytes.
    pub(crate) fn read(bytes: &'a [u8]) -> Option<Head<'a>>
        ensures { MatchOption result (length bytes.now < 8) (λ head. HasHead bytes.now head.name.now head.size head.behind.now) }
    {
        let (name, rest) = bytes.split_at_checked(4)?;
        let (size, behind) = rest.split_at_checked(4)?;
        Some(Head {
            name,
            size: LittleEndian::read_u32(size),
            behind,
        })
    }
}

/// What stands behind a body of this size and its padding: behind an odd one a byte, if one is left.
pub(crate) fn behind_padding(size: u32, behind: &[u8]) -> &[u8]
    ensures { result.now ≡ drop (size % 2) behind.now }
{
    match behind {
        [_, others @ ..] if size % 2 == 1 => others,
        _ => behind,
    }
}
