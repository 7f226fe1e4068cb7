//! The voices of a text, as random words choose them.

ghost use Rattle.std.specs.Prelude.{◌≡◌, ◌++◌, OnOk};
ghost use Rattle.load_text.specs.LoadText.{after_voice, voice_line, voice_of};

use crate::number::add_number;
use fixed_point::Memory;
use rand_core::utils::NextWord;
use rand_pcg::Lcg64Xsh32;

/// What a voice takes of the random words.
#[derive(Clone, Copy)]
pub(crate) struct Voice {
    /// Of its tone, in hertz.
    frequency: u32,
    /// How many it makes.
    cells: u32,
    /// The samples after each cell.
    wait: u32,
}

impl Voice {
    /// The voice that the next three words choose.
    pub(crate) fn draw(words: &mut Lcg64Xsh32) -> Voice
        ensures voice { result ≡ voice_of words.old }
        ensures words { words.new ≡ after_voice words.old }
    {
        let frequency = 100 + words.next_word() % 1000;
        let cells = 50 + words.next_word() % 100;
        let wait = 1 + words.next_word() % 200;
        Voice {
            frequency,
            cells,
            wait,
        }
    }

    /// Appends its line.
    #[tactic(auto, unfolding(crate::specs::LoadText::voice_line))]
    pub(crate) fn add_line(self, number: u32, into: &mut Vec<u8>) -> Result<(), Memory>
        ensures { OnOk result (into.new.items ≡ into.old.items ++ voice_line number self) }
    {
        add_number(b"fun void voice", number, into)?;
        add_number(b"() { SinOsc s => dac; ", self.frequency, into)?;
        add_number(
            b" => s.freq; 0.001 => s.gain; Cell @ top; for (0 => int k; k < ",
            self.cells,
            into,
        )?;
        add_number(
            b"; k++) { new Cell @=> Cell @ c; k => c.v; top @=> c.next; c @=> top; ",
            self.wait,
            into,
        )?;
        into.extend_from_slice(b"::samp => now; } }\n")?;
        Ok(())
    }
}
