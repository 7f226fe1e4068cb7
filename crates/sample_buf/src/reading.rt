//! The reader.

ghost use Rattle.std.specs.Prelude.{◌≡◌, ℕ, ◌≤◌, length, IfOk, IfErr, MatchResult, Err};
ghost use Rattle.fixed_point.specs.Wanting.{out_of_memory};
ghost use Rattle.sample_buf.specs.Waves.{HasSamples, IsWave, IsFault};

use crate::chunk::{Head, behind_padding, riff_chunks};
use crate::fault::WaveFault;
use crate::format::Format;
use crate::waves::{MAX_WAVE_BYTES, Wave};
use ck_base::List;
use std::alloc::Global;

/// The samples of a file, as bytes, and their format.
#[derive(Clone, Copy)]
struct Samples<'a> {
    format: Format,
    bytes: &'a [u8],
}

/// The samples of a file, or the place from which on it is no wave.
fn find_samples(file: &[u8]) -> Result<Samples<'_>, u32>
    requires { length file.now ≤ MAX_WAVE_BYTES }
    ensures found { IfOk result (λ samples. HasSamples file.now samples.format samples.bytes.now) }
    ensures fault { IfErr result (IsFault file.now) }
{
    let Some(mut rest) = riff_chunks(file) else {
        return Err(0);
    };
    let mut format = None;
    while let Some(head) = Head::read(rest) {
        let at = (file.len() - rest.len()) as u32;
        if head.name == b"data".as_slice() {
            let Some(format) = format else {
                return Err(at);
            };
            let (bytes, _) = head
                .behind
                .split_at(head.behind.len().min(head.size as usize));
            return Ok(Samples { format, bytes });
        }
        let Some((body, behind)) = head.behind.split_at_checked(head.size as usize) else {
            return Err(at);
        };
        if head.name == b"fmt ".as_slice() {
            let Some(said) = Format::read(body) else {
                return Err(at);
            };
            format = Some(said);
        }
        rest = behind_padding(head.size, behind);
    }
    Err((file.len() - rest.len()) as u32)
}

/// The wave that the bytes of a file of at most 4,194,304 are.
///
/// `Wave` comes exactly where they are none, with the place of the first fault. `Memory` comes only
/// where they are one.
pub fn wave(alloc: Global, file: &[u8]) -> Result<Wave, WaveFault>
    requires { length file.now ≤ MAX_WAVE_BYTES }
    ensures ok { IfOk result (IsWave file.now) }
    ensures fault { (at : _) → result ≡ Err (WaveFault.Wave at) → IsFault file.now at }

    ensures memory { result ≡ Err (WaveFault.Memory out_of_memory) → (wave : _) × IsWave file.now wave }

    // What is a wave is answered with it, and what has a fault with that fault.
    ensures reads { (wave : _) → IsWave file.now wave →
        MatchResult result (λ answer. answer ≡ wave) (λ fault. fault ≡ WaveFault.Memory out_of_memory) }
    ensures refuses { (at : _) → IsFault file.now at → result ≡ Err (WaveFault.Wave at) }
{
    match find_samples(file) {
        Ok(Samples { format, bytes }) => {
            let frames = format.frames(alloc, bytes)?;
            Ok(Wave {
                rate: format.rate,
                frames: List::from_vec(frames),
            })
        }
        Err(at) => Err(WaveFault::Wave { at }),
    }
}
