//! Laws of the arithmetic: each is the contract of a function that does nothing.

ghost use Rattle.std.specs.Prelude.{◌≡◌, ◌≢◌, ◌↔◌, ℤ, pos, ◌≤ℤ◌, ◌<ℤ◌};
ghost use Rattle.fixed_point.specs.Rounding.{floor_div, IsFloorOf};
ghost use Rattle.fixed_point.specs.Decimals.{millionths_of, text_of};
ghost use Rattle.fixed_point.specs.Fix.{IsInRange, least, greatest, sum_of, product_of, negation_of};

/// The quotient in which contracts speak is the floor of the exact one, for each sign of the two.
pub fn quotients_are_floors()
    ensures { (a b : ℤ) → b ≢ pos 0 → IsFloorOf (floor_div a b) a b }
{}

/// No other whole number is that floor.
pub fn floors_are_unique()
    ensures { (q a b : ℤ) → b ≢ pos 0 → IsFloorOf q a b → q ≡ floor_div a b }
{}

/// A greater number gives a greater or the same sum.
pub fn addition_is_monotone()
    ensures { (a b c : ℤ) → a ≤ℤ b → sum_of a c ≤ℤ sum_of b c }
{}

/// A greater number gives a greater or the same product with a number that isn't negative.
pub fn multiplication_is_monotone()
    ensures { (a b c : ℤ) → pos 0 ≤ℤ c → a ≤ℤ b → product_of a c ≤ℤ product_of b c }
{}

/// Negating twice gives a number back, but for the least one.
pub fn negating_twice_is_the_number()
    ensures { (a : ℤ) → least <ℤ a → a ≤ℤ greatest → negation_of (negation_of a) ≡ a }
{}

/// Two numbers print alike exactly when they agree, cut toward zero, to the sixth decimal.
pub fn texts_tell_millionths_apart()
    ensures { (a b : ℤ) → IsInRange a → IsInRange b →
        (text_of a ≡ text_of b) ↔ (millionths_of a ≡ millionths_of b) }
{}
