//! Names and words.

ghost use Rattle.std.specs.Prelude.{◌≡◌, IfOk, true, false};
ghost use Rattle.ck_lexer.specs.Bytes.{begins_with};
ghost use Rattle.ck_lexer.specs.Bytes as kind;
ghost use Rattle.ck_lexer.specs.Gaps.{opens_comment};
ghost use Rattle.ck_lexer.specs.Tokens.{TokenStands};

use crate::bytes::{is_within_limit, name_bytes};
use crate::table::word_of;
use crate::token::TokenKind;
use ck_base::Text;
use fixed_point::Memory;
use std::alloc::Global;

/// The word or the name at the front with how many bytes it has, or none where it is too long.
pub(crate) fn name(alloc: Global, bytes: &[u8]) -> Result<Option<(TokenKind, usize)>, Memory>
    requires name { begins_with kind.begins_name bytes.now ≡ true }
    requires no_comment { opens_comment bytes.now ≡ false }
    ensures { IfOk result (TokenStands bytes.now) }
{
    let length = name_bytes(bytes);
    let (name, _) = bytes.split_at(length);
    if let Some(word) = word_of(name) {
        return Ok(Some((TokenKind::Word(word), length)));
    }
    if !is_within_limit(length) {
        return Ok(None);
    }
    let name = Text::from_bytes(alloc, name)?;
    Ok(Some((TokenKind::Name(name), length)))
}
