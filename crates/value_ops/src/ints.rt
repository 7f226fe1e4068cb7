//! Operators on two ints.
ghost use Rattle.std.specs.Prelude.{◌≡◌, ◌<◌, ◌^◌, pos, ◌*ℤ◌, int_div, MatchResult};
ghost use Rattle.ck_values.specs.Datum.{AnInt};
ghost use Rattle.ck_store.specs.Store.{Gives, Fails, IsFitting};
ghost use Rattle.ck_store.specs.Operators.{binary, low_six, wrapped, unless_zero};

use crate::numbers::{remainder, truth};
use ck_values::{Op2, Trap};

/// The operator on two ints, which `binary` carries out too: the short way for a caller that knows
/// them to be ints. `DivisionByZero` comes exactly where a divisor is zero.
#[inline(always)] // ints are what loops count with
#[tactic(auto, using(crate::proofs::Wraps::wraps), unfolding(ck_store::specs::Operators::binary))]
pub fn of_ints(op: Op2, a: i64, b: i64) -> Result<i64, Trap>
    requires { IsFitting (binary op (AnInt a) (AnInt b)) }
    ensures { MatchResult result
        (λ n. binary op (AnInt a) (AnInt b) ≡ Gives (AnInt n))
        (λ trap. binary op (AnInt a) (AnInt b) ≡ Fails trap) }
{
    Ok(match op {
        Op2::AddIntInt => a.wrapping_add(b),
        Op2::SubIntInt => a.wrapping_sub(b),
        Op2::MulIntInt => a.wrapping_mul(b),
        Op2::DivIntInt => quotient(a, b)?,
        Op2::ModIntInt => remainder(a, b)?,
        Op2::AndIntInt => a & b,
        Op2::OrIntInt => a | b,
        Op2::XorIntInt => a ^ b,
        Op2::ShlIntInt => shifted_left(a, b),
        Op2::ShrIntInt => a.wrapping_shr(low_six(b)),
        Op2::EqIntInt => truth(a == b),
        Op2::NeIntInt => truth(a != b),
        Op2::LtIntInt => truth(a < b),
        Op2::GtIntInt => truth(a > b),
        Op2::LeIntInt => truth(a <= b),
        Op2::GeIntInt => truth(a >= b),
        _ => unreachable!(),
    })
}

/// The quotient, cut toward zero; the least int over -1 wraps.
#[tactic(auto, using(crate::proofs::Wraps::wraps))]
fn quotient(a: i64, b: i64) -> Result<i64, Trap>
    ensures { MatchResult result
        (λ q. unless_zero b (AnInt (wrapped (int_div a b))) ≡ Gives (AnInt q))
        (λ trap. unless_zero b (AnInt (wrapped (int_div a b))) ≡ Fails trap) }
{
    if b == 0 {
        return Err(Trap::DivisionByZero);
    }
    Ok(a.wrapping_div(b))
}

/// The bits moved up by the low six bits of `b`; those past the 64th are lost.
fn shifted_left(a: i64, b: i64) -> i64
    ensures { result ≡ wrapped (a *ℤ pos (2 ^ low_six b)) }
{
    a.wrapping_shl(low_six(b))
}

/// The low six bits: by how many bits a shift goes.
fn low_six(n: i64) -> u32
    ensures value { result ≡ low_six n }
    ensures bound { result < 64 }
{
    n.rem_euclid(64) as u32
}
