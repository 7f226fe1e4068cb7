//! Number literals and their values.

ghost use Rattle.std.specs.Prelude.{◌≡◌, ◌<◌, ◌≤◌, ◌+◌, ℕ, List, ◌++◌, length, take, drop, map, pos, true, false, codes, MatchOption, nat_le};
ghost use Rattle.std.specs.List.{prefix_len};
ghost use Rattle.ck_lexer.specs.Bytes.{is_hexadecimal, begins_number};
ghost use Rattle.ck_lexer.specs.Gaps.{begins, opens_comment};
ghost use Rattle.ck_lexer.specs.Numbers as value;
ghost use Rattle.ck_lexer.specs.Tokens.{TokenStands};

use crate::bytes::{digits, hexadecimal_digits};
use crate::token::TokenKind;
use fixed_point::Fix;

/// The greatest int.
const MAX_INT: u128 = i64::MAX as u128;

/// The greatest whole part of a float literal.
const MAX_WHOLE: i64 = 2_147_483_647;

/// The raw number of one.
const ONE: u128 = 1 << 32;

/// How many decimals of a float literal count.
const COUNTED: usize = 18;

/// What a digit stands for; a letter in either case for ten to fifteen.
fn digit_value(b: u8) -> u8
    ensures value { result ≡ value.digit_value b }
    ensures small { result < 16 }
{
    match b {
        b'0'..=b'9' => b - b'0',
        b'A'..=b'F' => b - b'A' + 10,
        b'a'..=b'f' => b - b'a' + 10,
        _ => 0,
    }
}

/// The number that digits write in base 10 or 16, or none where it is past the greatest int.
fn number_in(base: u8, digits: &[u8]) -> Option<i64>
    requires at_least { 1 ≤ base }
    requires at_most { base ≤ 16 }
    ensures { let number = value.number_in base digits.now in
        MatchOption result (value.max_int < number)
        (λ n. (n ≡ pos number) × (number ≤ value.max_int)) }
{
    let mut number: u128 = 0;
    for digit in digits {
        number = number * u128::from(base) + u128::from(digit_value(*digit));
        if number > MAX_INT {
            return None;
        }
    }
    Some(number as i64)
}

/// The value of a float literal, or none where its whole part is too great.
fn float(whole: &[u8], decimals: &[u8]) -> Option<Fix>
    ensures { let fits = nat_le (value.number_in 10 whole.now) value.max_whole in
        MatchOption result (fits ≡ false)
        (λ x. (x ≡ pos (value.raw_of whole.now decimals.now)) × (fits ≡ true)) }
{
    let floor = number_in(10, whole)?;
    if floor > MAX_WHOLE {
        return None;
    }
    let mut number = floor as u128;
    let mut scale: u128 = 1;
    let (counted, _) = decimals.split_at(COUNTED.min(decimals.len()));
    for digit in counted {
        number = number * 10 + u128::from(digit_value(*digit));
        scale *= 10;
    }
    let units = (number * ONE).div_ceil(scale);
    Some(Fix::from_raw(units.min(MAX_INT) as i64))
}

/// The digits behind `0x`, if there is one.
fn hexadecimal(bytes: &[u8]) -> Option<&[u8]>
    ensures { let behind = drop 2 bytes.now in
        MatchOption result
        (begins (codes "0x") bytes.now ≡ true → prefix_len is_hexadecimal behind ≡ 0)
        (λ digits. (begins (codes "0x") bytes.now ≡ true)
        × (digits.now ≡ take (prefix_len is_hexadecimal behind) behind)
        × (0 < length digits.now)) }
{
    if !bytes.starts_with(b"0x") {
        return None;
    }
    let (_, behind) = bytes.split_at(2);
    let length = hexadecimal_digits(behind);
    if length == 0 {
        return None;
    }
    Some(behind.split_at(length).0)
}

/// The number at the front with how many bytes it has, or none where it is past its range.
pub(crate) fn number(bytes: &[u8]) -> Option<(TokenKind, usize)>
    requires number { begins_number bytes.now ≡ true }
    requires no_comment { opens_comment bytes.now ≡ false }
    ensures { TokenStands bytes.now result }
{
    if let Some(hexadecimal) = hexadecimal(bytes) {
        let value = number_in(16, hexadecimal)?;
        return Some((TokenKind::Int(value), hexadecimal.len() + 2));
    }
    let (whole, behind) = bytes.split_at(digits(bytes));
    if !behind.starts_with(b".") {
        let value = number_in(10, whole)?;
        return Some((TokenKind::Int(value), whole.len()));
    }
    let (_, behind) = behind.split_at(1);
    let (decimals, _) = behind.split_at(digits(behind));
    let value = float(whole, decimals)?;
    Some((TokenKind::Float(value), whole.len() + 1 + decimals.len()))
}
