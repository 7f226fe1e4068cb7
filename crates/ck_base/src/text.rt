ghost use Rattle.std.specs.Prelude.{◌≡◌, ◌≤◌, List, ℕ, length, IfOk};
ghost use Rattle.ck_base.specs.declared.limits.TheConstants.{MAX_TEXT_BYTES};

use crate::limits::MAX_TEXT_BYTES;
use fixed_point::Memory;
use std::alloc::Global;
use std::marker::Model;

/// A string of the language, a name, or a text of the source: at most 65,536 bytes.
///
/// Contracts see its bytes.
#[derive(Drop)]
pub struct Text {
    bytes: Vec<u8>,
}

impl Model for Text {
    ghost Value = { List ℕ };

    ghost view = { λ t. t.bytes.items };

    ghost invariant = { λ t. length t.bytes.items ≤ MAX_TEXT_BYTES };
}

impl Text {
    /// A text of these bytes.
    pub fn from_bytes(alloc: Global, bytes: &[u8]) -> Result<Text, Memory>
        requires { length bytes.now ≤ MAX_TEXT_BYTES }
        ensures { IfOk result (λ text. text ≡ bytes.now) }
    {
        let bytes = bytes.to_vec(alloc)?;
        Ok(Text { bytes })
    }

    /// The bytes, of which there are at most 65,536.
    pub fn bytes(&self) -> &[u8]
        ensures bytes { result.now ≡ self.now }
        ensures within { length self.now ≤ MAX_TEXT_BYTES }
    {
        self.bytes.as_slice()
    }

    /// A text of the same bytes.
    pub fn try_clone(&self, alloc: Global) -> Result<Text, Memory>
        ensures { IfOk result (λ text. text ≡ self.now) }
    {
        Text::from_bytes(alloc, self.bytes())
    }
}
