//! A large program that a number gives, to load the compiler and the machine with.
//!
//! Its one contract: [`load_text`] appends exactly the text that `specs/` gives for the number, and
//! that text is short enough for a source file. It has 200 functions, each run by a shred of its
//! own that sounds a tone and makes objects, with frequencies, counts and waits from random words.
//! The driver runs it for the command `load`.
#![tactic(auto)]

ghost use Rattle.std.specs.Prelude.{◌≡◌, ◌≤◌, ◌++◌, length, OnOk};
ghost use Rattle.ck_base.specs.declared.limits.TheConstants.{MAX_FILE_BYTES};
ghost use Rattle.load_text.specs.LoadText.{load_text, sporks, voices};

mod number;
mod voice;

use fixed_point::Memory;
use number::add_number;
use rand_pcg::Lcg64Xsh32;
use voice::Voice;

/// The voices of a text.
const VOICES: u32 = 200;

/// Appends the text of a number.
#[tactic(auto, using(crate::proofs::Short::text_is_short))]
pub fn load_text(seed: u32, into: &mut Vec<u8>) -> Result<(), Memory>
    ensures text { OnOk result (into.new.items ≡ into.old.items ++ load_text seed) }
    ensures short { length (load_text seed) ≤ MAX_FILE_BYTES }
{
    into.extend_from_slice(b"class Cell { int v; Cell @ next; }\n")?;
    add_voices(seed, into)?;
    add_sporks(into)?;
    into.extend_from_slice(b"1::second => now;\n")?;
    Ok(())
}

/// Appends the lines of the voices.
fn add_voices(seed: u32, into: &mut Vec<u8>) -> Result<(), Memory>
    ensures { OnOk result (into.new.items ≡ into.old.items ++ voices seed VOICES) }
{
    let mut words = Lcg64Xsh32::new(u64::from(seed), 54);
    for number in 0..VOICES {
        Voice::draw(&mut words).add_line(number, into)?;
    }
    Ok(())
}

/// Appends the lines that spork the voices.
fn add_sporks(into: &mut Vec<u8>) -> Result<(), Memory>
    ensures { OnOk result (into.new.items ≡ into.old.items ++ sporks VOICES) }
{
    for number in 0..VOICES {
        add_number(b"spork ~ voice", number, into)?;
        into.extend_from_slice(b"();\n")?;
    }
    Ok(())
}
