//! What operators on numbers of several types share.
ghost use Rattle.std.specs.Prelude.{◌≡◌, ◌≢◌, pos, ◌*ℤ◌, int_rem, MatchResult};
ghost use Rattle.fixed_point.specs.Rounding.{floor_div};
ghost use Rattle.fixed_point.specs.Fix.{nearest_in_range, sum_of, difference_of};
ghost use Rattle.fixed_point.specs.Fix.{negation_of, quotient_of};
ghost use Rattle.ck_values.specs.Datum.{AnInt, AFloat};
ghost use Rattle.ck_store.specs.Store.{Gives, Fails};
ghost use Rattle.ck_store.specs.Operators.{truth, unless_zero};

use ck_values::Trap;
use fixed_point::{Fix, nearest_in_range};

/// 1 for true and 0 for false.
pub(crate) fn truth(holds: bool) -> i64
    ensures { result ≡ truth holds }
{
    i64::from(holds)
}

/// The sum, or the number in range that is nearest to it.
#[tactic(auto, unfolding(fixed_point::specs::Fix::nearest_in_range))]
pub(crate) fn clamped_sum(a: i64, b: i64) -> i64
    ensures { result ≡ sum_of a b }
{
    a.saturating_add(b)
}

/// The difference, or the number in range that is nearest to it.
#[tactic(auto, unfolding(fixed_point::specs::Fix::nearest_in_range))]
pub(crate) fn clamped_difference(a: i64, b: i64) -> i64
    ensures { result ≡ difference_of a b }
{
    a.saturating_sub(b)
}

/// The product of two whole numbers, or the number in range that is nearest to it.
#[tactic(auto, unfolding(fixed_point::specs::Fix::nearest_in_range))]
pub(crate) fn clamped_product(a: i64, b: i64) -> i64
    ensures { result ≡ nearest_in_range (a *ℤ b) }
{
    a.saturating_mul(b)
}

/// The negation, or the number in range that is nearest to it.
#[tactic(auto, unfolding(fixed_point::specs::Fix::nearest_in_range))]
pub(crate) fn clamped_negation(a: i64) -> i64
    ensures { result ≡ negation_of a }
{
    a.saturating_neg()
}

/// What `a / b`, cut toward zero, leaves of `a`: it has the sign of `a`.
pub(crate) fn remainder(a: i64, b: i64) -> Result<i64, Trap>
    ensures { MatchResult result
        (λ r. unless_zero b (AnInt (int_rem a b)) ≡ Gives (AnInt r))
        (λ trap. unless_zero b (AnInt (int_rem a b)) ≡ Fails trap) }
{
    if b == 0 {
        return Err(Trap::DivisionByZero);
    }
    Ok(a.wrapping_rem(b))
}

/// The quotient as a float, floored to a unit and clamped.
pub(crate) fn ratio(a: i64, b: i64) -> Result<Fix, Trap>
    ensures { MatchResult result
        (λ q. unless_zero b (AFloat (quotient_of a b)) ≡ Gives (AFloat q))
        (λ trap. unless_zero b (AFloat (quotient_of a b)) ≡ Fails trap) }
{
    Fix::over(a, b).ok_or(Trap::DivisionByZero)
}

/// The floor of `a / b`, clamped.
pub(crate) fn floored(a: i64, b: i64) -> i64
    requires { b ≢ pos 0 }
    ensures { result ≡ nearest_in_range (floor_div a b) }
{
    let (a, b) = (i128::from(a), i128::from(b));
    if b > 0 {
        nearest_in_range(a.div_euclid(b))
    } else {
        nearest_in_range((-a).div_euclid(-b))
    }
}
