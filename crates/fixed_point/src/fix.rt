ghost use Rattle.std.specs.Prelude.{◌≡◌, ℤ, pos, ◌<ℤ◌, ◌↔◌, IsNone, IfSome};
ghost use Rattle.fixed_point.specs.Fix.{sum_of, difference_of, product_of, quotient_of, remainder_of, negation_of, magnitude_of, float_of, whole_of, scaled_of, sample_of};

use crate::rounding::{FRACTION_BITS, ONE, exact_product, nearest_in_range, nearest_quotient};
use std::marker::Model;

/// A number of the language's type `float`: a signed count of units of 2^-32, its raw number.
///
/// Contracts see the raw number.
#[derive(Clone, Copy, PartialEq, Eq, PartialOrd, Ord)]
pub struct Fix {
    raw: i64,
}

impl Model for Fix {
    ghost Value = { ℤ };

    ghost view = { λ x. x.raw };

    ghost inverse = { λ n. record { raw = n } };
}

impl Fix {
    /// The number of `raw` units of 2^-32.
    pub fn from_raw(raw: i64) -> Fix
        ensures { result ≡ raw }
    {
        Fix { raw }
    }

    /// The count of units of 2^-32.
    pub fn raw(self) -> i64
        ensures { result ≡ self }
    {
        self.raw
    }

    /// The whole number `n`, or the nearest float where it is past the range.
    #[tactic(auto, unfolding(crate::specs::Fix::nearest_in_range))]
    pub fn from_int(n: i64) -> Fix
        ensures { result ≡ float_of n }
    {
        Fix::from_raw(n.saturating_mul(ONE))
    }

    /// The whole number, cut toward zero.
    pub fn to_int(self) -> i64
        ensures { result ≡ whole_of self }
    {
        self.raw / ONE
    }

    /// The sum, clamped.
    #[tactic(auto, unfolding(crate::specs::Fix::nearest_in_range))]
    pub fn add(self, o: Fix) -> Fix
        ensures { result ≡ sum_of self o }
    {
        Fix::from_raw(self.raw.saturating_add(o.raw))
    }

    /// The difference, clamped.
    #[tactic(auto, unfolding(crate::specs::Fix::nearest_in_range))]
    pub fn sub(self, o: Fix) -> Fix
        ensures { result ≡ difference_of self o }
    {
        Fix::from_raw(self.raw.saturating_sub(o.raw))
    }

    /// The product, floored to a unit and clamped.
    pub fn mul(self, o: Fix) -> Fix
        ensures { result ≡ product_of self o }
    {
        Fix::from_raw(nearest_in_range(exact_product(self.raw, o.raw) >> FRACTION_BITS))
    }

    /// The negated number, clamped: the least number gives the greatest.
    #[tactic(auto, unfolding(crate::specs::Fix::nearest_in_range))]
    pub fn neg(self) -> Fix
        ensures { result ≡ negation_of self }
    {
        Fix::from_raw(self.raw.saturating_neg())
    }

    /// The number without its sign, clamped: the least number gives the greatest.
    #[tactic(auto, unfolding(crate::specs::Fix::nearest_in_range))]
    pub fn abs(self) -> Fix
        ensures { result ≡ magnitude_of self }
    {
        Fix::from_raw(self.raw.saturating_abs())
    }

    /// The quotient, floored to a unit and clamped, or `None` where `o` is 0.
    pub fn div(self, o: Fix) -> Option<Fix>
        ensures zero { IsNone result ↔ (o ≡ pos 0) }
        ensures value { IfSome result (λ q. q ≡ quotient_of self o) }
    {
        Fix::over(self.raw, o.raw)
    }

    /// The remainder of the raw numbers, with the sign of `self`, or `None` where `o` is 0.
    pub fn rem(self, o: Fix) -> Option<Fix>
        ensures zero { IsNone result ↔ (o ≡ pos 0) }
        ensures value { IfSome result (λ r. r ≡ remainder_of self o) }
    {
        if o.raw == 0 {
            return None;
        }
        Some(Fix::from_raw(self.raw.wrapping_rem(o.raw)))
    }

    /// The whole number below or at `self * n / d`, clamped to 64 bits.
    pub fn scale(self, n: i64, d: i64) -> i64
        requires { pos 0 <ℤ d }
        ensures { result ≡ scaled_of self n d }
    {
        nearest_quotient(exact_product(self.raw, n), exact_product(d, ONE))
    }

    /// The quotient of two whole numbers as a float, floored to a unit and clamped, or `None`
    /// where `b` is 0.
    pub fn over(a: i64, b: i64) -> Option<Fix>
        ensures zero { IsNone result ↔ (b ≡ pos 0) }
        ensures value { IfSome result (λ q. q ≡ quotient_of a b) }
    {
        if b == 0 {
            return None;
        }
        let quotient = nearest_quotient(exact_product(a, ONE), i128::from(b));
        Some(Fix::from_raw(quotient))
    }

    /// The sample of 16 bits: the floor of the number times 32768, clamped.
    pub fn to_i16(self) -> i16
        ensures { result ≡ sample_of self }
    {
        // A sample has 15 bits below the point.
        let sample = self.raw >> (FRACTION_BITS - 15);
        sample.clamp(i64::from(i16::MIN), i64::from(i16::MAX)) as i16
    }
}
