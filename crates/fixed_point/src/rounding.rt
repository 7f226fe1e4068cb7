//! The floor of a quotient, and the clamp to the range of 64 bits, in 128 bits.

ghost use Rattle.std.specs.Prelude.{◌≡◌, ◌≢◌, ℤ, pos, ◌*ℤ◌, ◌≤◌, ◌^◌, unsigned_abs};
ghost use Rattle.fixed_point.specs.Rounding.{floor_div};
ghost use Rattle.fixed_point.specs.Fix.{nearest_in_range};

/// The bits of a raw number below the point.
pub(crate) const FRACTION_BITS: u32 = 32;

/// The units of the number 1.0.
pub(crate) const ONE: i64 = 1 << FRACTION_BITS;

/// The product, which 128 bits always hold.
pub(crate) fn exact_product(a: i64, b: i64) -> i128
    ensures value { result ≡ a *ℤ b }
    ensures bound { unsigned_abs result ≤ 2 ^ 126 }
{
    i128::from(a) * i128::from(b)
}

/// The floor of a / b.
fn floor_div(a: i128, b: i128) -> i128
    requires nonzero { b ≢ pos 0 }
    requires a_has_room { unsigned_abs a ≤ 2 ^ 126 }
    requires b_has_room { unsigned_abs b ≤ 2 ^ 126 }
    ensures { result ≡ floor_div a b }
{
    if b > 0 {
        a.div_euclid(b)
    } else {
        (-a).div_euclid(-b)
    }
}

/// The number of 64 bits that is nearest to `z`: `z` itself, or the end of the range that it is past.
#[tactic(auto, unfolding(crate::specs::Fix::nearest_in_range))]
pub fn nearest_in_range(z: i128) -> i64
    ensures { result ≡ nearest_in_range z }
{
    match i64::try_from(z) {
        Ok(n) => n,
        Err(_) => clamped(z),
    }
}

/// The same by a call, since mostly a number is in range: the processor guesses that test right.
#[inline(never)]
#[tactic(auto, unfolding(crate::specs::Fix::nearest_in_range))]
fn clamped(z: i128) -> i64
    ensures { result ≡ nearest_in_range z }
{
    z.clamp(i128::from(i64::MIN), i128::from(i64::MAX)) as i64
}

/// The number in range that is nearest to the floor of a / b.
pub(crate) fn nearest_quotient(a: i128, b: i128) -> i64
    requires nonzero { b ≢ pos 0 }
    requires a_has_room { unsigned_abs a ≤ 2 ^ 126 }
    requires b_has_room { unsigned_abs b ≤ 2 ^ 126 }
    ensures { result ≡ nearest_in_range (floor_div a b) }
{
    nearest_in_range(floor_div(a, b))
}
