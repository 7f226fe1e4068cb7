//! The phase of an oscillator: the step that it takes at each sample, and its sine.
//!
//! A phase is a number below 2^32, of which a turn has 2^32.

ghost use Rattle.std.specs.Prelude.{◌≡◌, pos, ◌*◌, ◌/◌, ◌<◌, ◌≤◌, ◌^◌};
ghost use Rattle.fixed_point.specs.Phase.{arch_of, sine_of, phase_of, increment_of};

use crate::fix::Fix;
use std::num::f64_to_bits_with_nan;

/// The samples of a second.
const RATE: i64 = 44_100;

/// The phases of half a turn.
const HALF_TURN: u64 = 1 << 31;

/// 2^50: the places of a sine's size, and 16 more.
const SCALE: f64 = 1_125_899_906_842_624.0;

/// 2^52: a float from here to its double is a whole number.
const WHOLE: f64 = 4_503_599_627_370_496.0;

/// The whole number `n` as a phase: modulo 2^32.
pub fn phase_of(n: i64) -> u32
    ensures { result ≡ phase_of n }
{
    n.rem_euclid(1 << 32) as u32
}

/// How far a phase goes on at each sample, at a frequency of so many turns a second: the floor of
/// its raw number over 44,100, modulo 2^32.
pub fn increment(frequency: Fix) -> u32
    ensures { result ≡ increment_of frequency }
{
    phase_of(frequency.raw().div_euclid(RATE))
}

/// The sine of a phase, from -1 to 1, by Bhaskara's quotient of two parabolas, which is nowhere
/// further from the sine than 0.002.
pub fn sine(phase: u32) -> Fix
    ensures { result ≡ sine_of phase }
{
    let size = arch(u64::from(phase) % HALF_TURN);
    Fix::from_raw(if u64::from(phase) < HALF_TURN {
        size
    } else {
        -size
    })
}

/// The sine's raw number at a phase of the first half of a turn.
fn arch(phase: u64) -> i64
    requires { phase < 2 ^ 31 }
    ensures size { result ≡ pos (arch_of phase) }
    ensures bound { arch_of phase ≤ 2 ^ 32 }
{
    let area = phase * (HALF_TURN - phase);
    let base = 5 * (1 << 60) - area;
    quotient(u128::from(area) << 34, base, guess(area, base)) as i64
}

/// The quotient, from a guess of it: any guess serves, and a near one is fast.
fn quotient(n: u128, divisor: u64, guess: u64) -> u64
    requires n { n < 2 ^ 96 }
    requires divisor { 2 ^ 62 ≤ divisor }
    requires guess { guess ≤ 2 ^ 34 }
    ensures { result ≡ n / divisor }
{
    let wide = u128::from(divisor);
    let mut q = guess;
    let mut product = u128::from(guess) * wide;
    'down: while product > n {
        q -= 1;
        product -= wide;
    }
    'up: while n - product >= wide {
        q += 1;
        product += wide;
    }
    q
}

/// About area * 2^34 / base, by one division in floating point. The float has 16 places more than the
/// quotient, so that rounding seldom passes a whole number; once [`WHOLE`] is added, those places are
/// the last of its whole part, which are its lowest bits.
fn guess(area: u64, base: u64) -> u64
    ensures { result ≤ 2 ^ 34 }
{
    let places = leading_places(area) * SCALE / leading_places(base) + WHOLE;
    f64_to_bits_with_nan(places) % (1 << 50) >> 16
}

/// The places of a number that a float holds whatever the number is: all but the last 11.
fn leading_places(n: u64) -> f64 {
    (n >> 11) as f64
}
