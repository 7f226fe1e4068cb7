//! The text of a number: six decimals, cut toward zero.

ghost use Rattle.std.specs.Prelude.{◌≡◌, ℤ, ◌+◌, ◌%◌, ◌<◌, ◌≤◌, ◌^◌, ◌∷◌, ◌++◌, OnOk, OnErr, drop, unsigned_abs};
ghost use Rattle.fixed_point.specs.Decimals.{millionths_of, last_digits, six_decimals, signed_six_decimals, text_of};

use crate::rounding::{ONE, exact_product};
use crate::{Fix, Memory};

/// The bytes of the longest text: a minus, ten digits, the point and six digits.
const LONGEST: usize = 18;

/// Where the point stands, since the decimals end the text.
const POINT: usize = LONGEST - 7;

const MILLION: u64 = 1_000_000;

impl Fix {
    /// Appends the number with six decimals, cut toward zero, with a minus only where a printed
    /// digit isn't 0. For want of memory `into` stays as it was.
    #[tactic(auto, unfolding(crate::specs::Decimals::text_of))]
    pub fn print6(self, into: &mut Vec<u8>) -> Result<(), Memory>
        ensures ok { OnOk result (into.new.items ≡ into.old.items ++ text_of self) }
        ensures err { OnErr result (into.new.items ≡ into.old.items) }
    {
        let mut text = [0; LONGEST];
        let start = write_signed(self.millionths(), &mut text);
        into.extend_from_slice(&text[start..])?;
        Ok(())
    }

    /// The count of millionths, cut toward zero.
    fn millionths(self) -> i64
        ensures value { result ≡ millionths_of self }
        ensures bound { unsigned_abs result < 2 ^ 51 }
    {
        (exact_product(self.raw(), 1_000_000) / i128::from(ONE)) as i64
    }
}

/// Writes the text of that many millionths so that it ends with `text`, and says where it starts.
fn write_signed(millionths: i64, text: &mut [u8; LONGEST]) -> usize
    requires { unsigned_abs millionths < 2 ^ 51 }
    ensures start { result ≤ LONGEST }
    ensures written { drop result text.new ≡ signed_six_decimals millionths }
{
    let start = write_unsigned(millionths.unsigned_abs(), text);
    if millionths >= 0 {
        return start;
    }
    text[start - 1] = b'-';
    start - 1
}

/// The same without a sign, with room left for one.
fn write_unsigned(millionths: u64, text: &mut [u8; LONGEST]) -> usize
    requires { millionths < 2 ^ 51 }
    ensures sign_fits { 0 < result }
    ensures start { result ≤ LONGEST }
    ensures written { drop result text.new ≡ six_decimals millionths }
{
    text[POINT..].copy_from_slice(&point_and_decimals(millionths % MILLION));
    itoa::write_digits(millionths / MILLION, text, POINT)
}

/// A point and the last six digits of `n`.
fn point_and_decimals(n: u64) -> [u8; 7]
    ensures { result ≡ 46 ∷ last_digits 6 n }
{
    [
        b'.',
        digit(n / 100_000),
        digit(n / 10_000),
        digit(n / 1_000),
        digit(n / 100),
        digit(n / 10),
        digit(n),
    ]
}

/// The last digit of `n`.
fn digit(n: u64) -> u8
    ensures { result ≡ 48 + n % 10 }
{
    b'0' + (n % 10) as u8
}
