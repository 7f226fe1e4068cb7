//! Units of time.
ghost use Rattle.std.specs.Prelude.{◌≡◌, pos, ◌*ℤ◌, ◌≤ℤ◌};
ghost use Rattle.fixed_point.specs.Rounding.{floor_div};
ghost use Rattle.fixed_point.specs.Fix.{nearest_in_range};
ghost use Rattle.ck_values.specs.Datum.{meant};
ghost use Rattle.ck_store.specs.Store.{Gives, IsFitting};
ghost use Rattle.ck_store.specs.Steps.{int_units, float_units};

use crate::numbers::clamped_product;
use ck_values::Value;
use fixed_point::nearest_in_range;

/// The dur of `x`, an int, times a unit of `n / d` samples: floored, and clamped once.
#[inline(always)] // waits for whole samples are counted by it
#[tactic(auto, unfolding(ck_store::specs::Steps::int_units))]
pub fn int_units(n: i64, d: i64, x: &Value) -> Value
    requires fitting { IsFitting (int_units n d (meant x.now)) }
    requires divisor { pos 1 ≤ℤ d }
    ensures { int_units n d (meant x.now) ≡ Gives (meant result) }
{
    match x {
        Value::Int(count) => Value::Dur(samples(*count, n, d)),
        _ => unreachable!(),
    }
}

/// The dur of `x`, a float, times a unit of `n / d` samples: floored, and clamped once.
#[tactic(auto, unfolding(ck_store::specs::Steps::float_units))]
pub fn fix_units(n: i64, d: i64, x: &Value) -> Value
    requires fitting { IsFitting (float_units n d (meant x.now)) }
    requires divisor { pos 1 ≤ℤ d }
    ensures { float_units n d (meant x.now) ≡ Gives (meant result) }
{
    match x {
        Value::Float(count) => Value::Dur(count.scale(n, d)),
        _ => unreachable!(),
    }
}

// The floor of x * n / d, or the number in range that is nearest to it. Whole numbers of samples
// want no division.
#[inline(always)]
#[tactic(auto, using(crate::proofs::Ones::by_one))]
fn samples(x: i64, n: i64, d: i64) -> i64
    requires { pos 1 ≤ℤ d }
    ensures { result ≡ nearest_in_range (floor_div (x *ℤ n) d) }
{
    if d == 1 {
        return clamped_product(x, n);
    }
    nearest_in_range(floor_div(i128::from(x) * i128::from(n), d))
}

// The floor of a / d.
fn floor_div(a: i128, d: i64) -> i128
    requires { pos 1 ≤ℤ d }
    ensures { result ≡ floor_div a d }
{
    a.div_euclid(i128::from(d))
}
