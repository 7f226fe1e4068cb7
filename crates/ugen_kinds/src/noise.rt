//! White noise.
ghost use Rattle.std.specs.Prelude.{◌≡◌};
ghost use Rattle.ugen_kinds.specs.Noise.{first_noise, noise_tick};

use fixed_point::Fix;
use rand_core::utils::NextWord;
use rand_pcg::Lcg64Xsh32;

/// What a Noise keeps: its own random words.
#[derive(Drop)]
pub struct Noise {
    words: Lcg64Xsh32,
}

impl Noise {
    /// With the words that the number of its object starts.
    #[tactic(auto, unfolding(crate::specs::Words::words_from))]
    pub(crate) fn new(number: u64) -> Noise
        ensures { result ≡ first_noise number }
    {
        Noise {
            words: Lcg64Xsh32::new(number, 54),
        }
    }

    /// One tick: a word of 32 bits as a number from -1 to below 1.
    pub(crate) fn tick(&mut self) -> Fix
        ensures { (self.new, result) ≡ noise_tick self.old }
    {
        let word = i64::from(self.words.next_word());
        Fix::from_raw(2 * word - (1 << 32))
    }
}
