//! A frequency.
ghost use Rattle.std.specs.Prelude.{◌≡◌};
ghost use Rattle.fixed_point.specs.Phase.{increment_of};

use fixed_point::{Fix, increment};
use std::marker::Model;

/// A frequency in turns a second, with the step by which a phase goes on at it: a tick finds that
/// here, and makes no quotient.
///
/// Contracts see the frequency alone.
#[derive(Clone, Copy)]
pub struct Frequency {
    turns: Fix,
    step: u32,
}

impl Model for Frequency {
    ghost use Rattle.std.specs.Prelude.{◌≡◌, ℕ, ℤ};
    ghost use Rattle.std.proofs.Common.{ap, sym};
    ghost use Rattle.fixed_point.specs.Phase.{increment_of};

    ghost Value = { ℤ };

    ghost view = { λ f. f.turns };

    ghost inverse = { λ turns. record { turns = turns; step = increment_of turns } };

    ghost inverse_ok = { λ f is. ap (λ (n : ℕ). record { turns = f.turns; step = n }) (sym is) };

    ghost invariant = { λ f. f.step ≡ increment_of f.turns };
}

impl Frequency {
    /// Of so many turns a second.
    #[inline(always)]
    pub(crate) fn new(turns: Fix) -> Frequency
        ensures { result ≡ turns }
    {
        Frequency {
            turns,
            step: increment(turns),
        }
    }

    /// In turns a second.
    #[inline(always)]
    pub(crate) fn turns(self) -> Fix
        ensures { result ≡ self }
    {
        self.turns
    }

    /// The phases by which a phase goes on at each sample.
    #[inline(always)]
    pub(crate) fn step(self) -> u32
        ensures { result ≡ increment_of self }
    {
        self.step
    }
}
