//! Texts in quotes.

ghost use Rattle.std.specs.Prelude.{◌≡◌, ◌∷◌, ◌+◌, ◌<◌, ◌^◌, ℕ, List, IfOk, MatchOption, length};
ghost use Rattle.ck_lexer.specs.Texts.{TextStands};
ghost use Rattle.ck_lexer.specs.Texts as texts;
ghost use Rattle.ck_lexer.specs.Tokens.{TokenStands};

use crate::bytes::is_within_limit;
use crate::token::TokenKind;
use ck_base::Text;
use fixed_point::Memory;
use std::alloc::Global;

/// The byte that an escape stands for, by the byte behind its backslash.
fn escaped(b: u8) -> Option<u8>
    ensures { result ≡ texts.escaped b }
{
    match b {
        b'n' => Some(b'\n'),
        b't' => Some(b'\t'),
        b'"' => Some(b'"'),
        b'\\' => Some(b'\\'),
        _ => None,
    }
}

/// The value of the text whose opening quote was read, and how many bytes it has from there on,
/// with its closing quote; none where it has another escape, or no end on its line.
fn value_of(alloc: Global, bytes: &[u8]) -> Result<Option<(Vec<u8>, usize)>, Memory>
    ensures { IfOk result (λ found.
        MatchOption found ((value : List ℕ) (n : ℕ) → TextStands bytes.now value n → ⊥)
        (λ x. TextStands bytes.now x.0.items x.1)) }
{
    let mut value = Vec::new(alloc);
    let mut n = 0;
    while n < bytes.len() {
        match bytes[n] {
            b'"' => return Ok(Some((value, n + 1))),
            b'\n' => return Ok(None),
            b'\\' => {
                let Some(e) = bytes.get(n + 1) else {
                    return Ok(None);
                };
                let Some(b) = escaped(*e) else {
                    return Ok(None);
                };
                value.push(b)?;
                n += 2;
            }
            b => {
                value.push(b)?;
                n += 1;
            }
        }
    }
    Ok(None)
}

/// The text at the front with how many bytes it has, or none where there is no end, another
/// escape, or a value that is too long. `behind` is what stands behind its opening quote.
pub(crate) fn text(alloc: Global, behind: &[u8]) -> Result<Option<(TokenKind, usize)>, Memory>
    requires { length behind.now + 1 < 2 ^ 64 }
    ensures { IfOk result (TokenStands (34 ∷ behind.now)) }
{
    let Some((value, length)) = value_of(alloc, behind)? else {
        return Ok(None);
    };
    if !is_within_limit(value.len()) {
        return Ok(None);
    }
    let value = Text::from_bytes(alloc, value.as_slice())?;
    Ok(Some((TokenKind::Text(value), length + 1)))
}
