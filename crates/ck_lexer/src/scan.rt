//! The tokens of a file, from its first byte to its last.

ghost use Rattle.std.specs.Prelude.{◌≡◌, ◌≤◌, ◌⊎◌, length, IfOk, MatchResult, Err, false};
ghost use Rattle.ck_base.specs.declared.limits.TheConstants.{MAX_FILE_BYTES};
ghost use Rattle.fixed_point.specs.Wanting.{out_of_memory};
ghost use Rattle.ck_lexer.specs.Gaps as gaps;
ghost use Rattle.ck_lexer.specs.Tokens.{TokenStands, AreTokens, IsFault};

use crate::bytes::{begins_name, begins_number, line_ends};
use crate::fault::LexFault;
use crate::gap::{behind, gap, opens_comment};
use crate::name::name;
use crate::number::number;
use crate::quoted::text;
use crate::table::mark_at;
use crate::token::{Token, TokenKind};
use fixed_point::Memory;
use std::alloc::Global;

/// The token at the front with how many bytes it has, or none where none begins.
fn token(alloc: Global, bytes: &[u8]) -> Result<Option<(TokenKind, usize)>, Memory>
    requires { length bytes.now ≤ MAX_FILE_BYTES }
    ensures { IfOk result (TokenStands bytes.now) }
{
    if opens_comment(bytes) {
        return Ok(None);
    }
    let Some((first, behind)) = bytes.split_first() else {
        return Ok(None);
    };
    if begins_name(*first) {
        return name(alloc, bytes);
    }
    if *first == b'"' {
        return text(alloc, behind);
    }
    if begins_number(bytes) {
        return Ok(number(bytes));
    }
    match mark_at(bytes) {
        Some((mark, length)) => Ok(Some((TokenKind::Mark(mark), length))),
        None => Ok(None),
    }
}

/// The tokens of a file of at most 1,048,576 bytes, with one End behind them.
///
/// `Lex` comes exactly where there is a first byte at which neither a space nor a comment nor a
/// token begins, and names it with its line. `Memory` may come in place of any answer.
pub fn tokens(alloc: Global, bytes: &[u8]) -> Result<Vec<Token>, LexFault>
    requires { length bytes.now ≤ MAX_FILE_BYTES }
    ensures ok { IfOk result (λ tokens. AreTokens bytes.now tokens.items) }
    ensures lex { (at line : _) → result ≡ Err (LexFault.Lex at line) → IsFault bytes.now at line }

    // What has tokens is answered with them, and what has a fault with that fault.
    ensures accepts { (ts : _) → AreTokens bytes.now ts →
        MatchResult result (λ tokens. tokens.items ≡ ts) (λ fault. fault ≡ LexFault.Memory out_of_memory) }
    ensures refuses { (at line : _) → IsFault bytes.now at line →
        MatchResult result (λ _. ⊥)
        (λ fault. (fault ≡ LexFault.Lex at line) ⊎ (fault ≡ LexFault.Memory out_of_memory)) }
{
    let mut tokens = Vec::new(alloc);
    let mut at = 0;
    let mut line = 1;
    while at < bytes.len() {
        let ahead = behind(bytes, at);
        if let Some(length) = gap(ahead) {
            line += line_ends(ahead.split_at(length).0) as u32;
            at += length;
        } else {
            let place = at as u32;
            let Some((kind, length)) = token(alloc, ahead)? else {
                return Err(LexFault::Lex { at: place, line });
            };
            tokens.push(Token {
                kind,
                line,
                at: place,
            })?;
            at += length;
        }
    }
    let kind = TokenKind::End;
    let at = at as u32;
    tokens.push(Token { kind, line, at })?;
    Ok(tokens)
}
