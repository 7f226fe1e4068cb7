//! The kinds of bytes that the language tells apart, and runs of them.

ghost use Rattle.std.specs.Prelude.{◌≡◌, ◌≤◌, length, count_by, nat_le};
ghost use Rattle.std.specs.List.{prefix_len};
ghost use Rattle.ck_base.specs.declared.limits.TheConstants.{MAX_TEXT_BYTES};
ghost use Rattle.ck_lexer.specs.Bytes as kind;

use ck_base::limits::MAX_TEXT_BYTES;

/// Whether the byte is a digit.
pub(crate) fn is_digit(b: u8) -> bool
    ensures { result ≡ kind.is_digit b }
{
    matches!(b, b'0'..=b'9')
}

/// Whether the byte is a hexadecimal digit, in either case.
pub(crate) fn is_hexadecimal(b: u8) -> bool
    ensures { result ≡ kind.is_hexadecimal b }
{
    matches!(b, b'0'..=b'9' | b'A'..=b'F' | b'a'..=b'f')
}

/// Whether the byte is a letter or `_`.
pub(crate) fn begins_name(b: u8) -> bool
    ensures { result ≡ kind.begins_name b }
{
    matches!(b, b'a'..=b'z' | b'A'..=b'Z' | b'_')
}

/// Whether the byte is a letter, `_` or a digit.
pub(crate) fn continues_name(b: u8) -> bool
    ensures { result ≡ kind.continues_name b }
{
    begins_name(b) || is_digit(b)
}

/// Whether the byte is a space: a blank, a tab, or an end of a line.
pub(crate) fn is_space(b: u8) -> bool
    ensures { result ≡ kind.is_space b }
{
    matches!(b, b' ' | b'\n' | b'\t' | b'\r')
}

/// Whether a name or the value of a text may have so many bytes.
pub(crate) fn is_within_limit(length: usize) -> bool
    ensures { result ≡ nat_le length MAX_TEXT_BYTES }
{
    length <= MAX_TEXT_BYTES
}

/// How many digits stand at the front.
pub(crate) fn digits(bytes: &[u8]) -> usize
    ensures count { result ≡ prefix_len kind.is_digit bytes.now }
    ensures within { result ≤ length bytes.now }
{
    bytes.iter().take_while(|b| is_digit(**b)).count()
}

/// How many hexadecimal digits stand at the front.
pub(crate) fn hexadecimal_digits(bytes: &[u8]) -> usize
    ensures count { result ≡ prefix_len kind.is_hexadecimal bytes.now }
    ensures within { result ≤ length bytes.now }
{
    bytes.iter().take_while(|b| is_hexadecimal(**b)).count()
}

/// How many letters, digits and `_` stand at the front.
pub(crate) fn name_bytes(bytes: &[u8]) -> usize
    ensures count { result ≡ prefix_len kind.continues_name bytes.now }
    ensures within { result ≤ length bytes.now }
{
    bytes.iter().take_while(|b| continues_name(**b)).count()
}

/// How many bytes stand before the first end of a line.
pub(crate) fn line_bytes(bytes: &[u8]) -> usize
    ensures count { result ≡ prefix_len kind.is_in_line bytes.now }
    ensures within { result ≤ length bytes.now }
{
    bytes.iter().take_while(|b| **b != b'\n').count()
}

/// How many lines end in these bytes.
pub(crate) fn line_ends(bytes: &[u8]) -> usize
    ensures { result ≡ count_by kind.is_line_end bytes.now }
{
    bytes.iter().filter(|b| **b == b'\n').count()
}

/// Whether a number begins at the front: with a digit, or with a point and a digit.
pub(crate) fn begins_number(bytes: &[u8]) -> bool
    ensures { result ≡ kind.begins_number bytes.now }
{
    match bytes {
        [b'.', next, ..] => is_digit(*next),
        [first, ..] => is_digit(*first),
        [] => false,
    }
}
