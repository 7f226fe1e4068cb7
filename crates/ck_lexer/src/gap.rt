//! Spaces and comments.

ghost use Rattle.std.specs.Prelude.{◌≡◌, ◌<◌, ◌≤◌, ℕ, length, drop, MatchOption};
ghost use Rattle.ck_lexer.specs.Gaps as gaps;

use crate::bytes::{is_space, line_bytes};

/// Whether a comment begins at the front: one always does at `//` and at `/*`.
pub(crate) fn opens_comment(bytes: &[u8]) -> bool
    ensures { result ≡ gaps.opens_comment bytes.now }
{
    bytes.starts_with(b"//") || bytes.starts_with(b"/*")
}

/// The bytes from the place `n` on.
pub(crate) fn behind(bytes: &[u8], n: usize) -> &[u8]
    requires { n ≤ length bytes.now }
    ensures { result.now ≡ drop n bytes.now }
{
    bytes.split_at(n).1
}

/// How many bytes there are up to the first `*/`, with it, if there is one.
fn comment_end(bytes: &[u8]) -> Option<usize>
    ensures { MatchOption result ((n : ℕ) → gaps.Closes bytes.now n → ⊥)
        (λ n. gaps.Closes bytes.now n × (n ≤ length bytes.now)) }
{
    for n in 0..bytes.len() {
        if behind(bytes, n).starts_with(b"*/") {
            return Some(n + 2);
        }
    }
    None
}

/// How many bytes the space or the comment at the front has, if one begins there.
pub(crate) fn gap(bytes: &[u8]) -> Option<usize>
    ensures { MatchOption result ((n : ℕ) → gaps.Gap bytes.now n → ⊥)
        (λ n. gaps.Gap bytes.now n × (0 < n) × (n ≤ length bytes.now)) }
{
    let (first, _) = bytes.split_first()?;
    if is_space(*first) {
        return Some(1);
    }
    if bytes.starts_with(b"//") {
        return Some(2 + line_bytes(behind(bytes, 2)));
    }
    if bytes.starts_with(b"/*") {
        return Some(2 + comment_end(behind(bytes, 2))?);
    }
    None
}
