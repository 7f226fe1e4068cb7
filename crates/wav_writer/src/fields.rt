ghost use Rattle.std.specs.Prelude.{◌≡◌, ℕ, ◌+◌, ◌≤◌, List, [], ◌++◌, length, take};
ghost use Rattle.byteorder.specs.Endian.{little_bytes};

use crate::HEADER_SIZE;
use byteorder::{ByteOrder, LittleEndian};
use std::marker::Model;

/// The fields of a header so far, in room for all of them. Contracts see their bytes.
#[derive(Drop)]
pub(crate) struct Fields {
    bytes: [u8; HEADER_SIZE],
    filled: usize,
}

impl Model for Fields {
    ghost Value = { List ℕ };

    ghost view = { λ f. take f.filled f.bytes };

    ghost invariant = { λ f. f.filled ≤ 44 };
}

impl Fields {
    pub(crate) fn new() -> Self
        ensures { result ≡ [] }
    {
        Fields {
            bytes: [0; HEADER_SIZE],
            filled: 0,
        }
    }

    /// Adds a text.
    pub(crate) fn text(&mut self, letters: &[u8])
        requires { length self.old + length letters.now ≤ HEADER_SIZE }
        ensures bytes { self.new ≡ self.old ++ letters.now }
        ensures len { length self.new ≡ length self.old + length letters.now }
    {
        let end = self.filled + letters.len();
        self.bytes[self.filled..end].copy_from_slice(letters);
        self.filled = end;
    }

    /// Adds a number of two bytes.
    pub(crate) fn short(&mut self, n: u16)
        requires { length self.old + 2 ≤ HEADER_SIZE }
        ensures bytes { self.new ≡ self.old ++ little_bytes 2 n }
        ensures len { length self.new ≡ length self.old + 2 }
    {
        let mut field = [0; 2];
        LittleEndian::write_u16(&mut field, n);
        self.text(&field);
    }

    /// Adds a number of four bytes.
    pub(crate) fn long(&mut self, n: u32)
        requires { length self.old + 4 ≤ HEADER_SIZE }
        ensures bytes { self.new ≡ self.old ++ little_bytes 4 n }
        ensures len { length self.new ≡ length self.old + 4 }
    {
        let mut field = [0; 4];
        LittleEndian::write_u32(&mut field, n);
        self.text(&field);
    }

    /// The bytes of a whole header.
    pub(crate) fn into_bytes(self) -> [u8; HEADER_SIZE]
        requires { length self ≡ HEADER_SIZE }
        ensures { result ≡ self }
    {
        self.bytes
    }
}
