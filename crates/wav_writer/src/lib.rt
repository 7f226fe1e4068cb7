//! The bytes of WAV files: RIFF WAVE with PCM of 16 bits at 44,100 frames a second.
//!
//! [`header`] gives the 44 bytes that begin a file, and [`put_frames`] appends samples, the low
//! byte of each first: their bytes are those that the format defines. `run_report` presses
//! sheets with these two.
#![tactic(auto)]

ghost use Rattle.std.specs.Prelude.{◌≡◌, ◌≤◌, ◌++◌, OnOk, OnErr};
ghost use Rattle.wav_writer.specs.Wav.{header_of, bytes_of_samples};

mod fields;

use byteorder::{ByteOrder, LittleEndian};
use fields::Fields;
use fixed_point::Memory;

/// The bytes of the header.
pub const HEADER_SIZE: usize = 44;

/// Frames a second.
const RATE: u32 = 44_100;

/// The most frames of a file, so that each size fits its field.
pub const FRAMES_MAX: u32 = 500_000_000;

/// The header of a file of that many frames, of one or two channels.
pub fn header(frames: u32, channels: u16) -> [u8; HEADER_SIZE]
    requires frames_fit { frames ≤ FRAMES_MAX }
    requires a_channel { 1 ≤ channels }
    requires two_channels_at_most { channels ≤ 2 }
    ensures { result ≡ header_of frames channels }
{
    let frame_size = 2 * channels;
    let data_size = u32::from(frame_size) * frames;
    let mut header = Fields::new();
    header.text(b"RIFF");
    header.long(36 + data_size);
    header.text(b"WAVE");
    header.text(b"fmt ");
    header.long(16);
    header.short(1);
    header.short(channels);
    header.long(RATE);
    header.long(RATE * u32::from(frame_size));
    header.short(frame_size);
    header.short(16);
    header.text(b"data");
    header.long(data_size);
    header.into_bytes()
}

/// Appends samples, each in two bytes, the low one first. For want of memory `into` stays as it
/// was.
pub fn put_frames(samples: &[i16], into: &mut Vec<u8>) -> Result<(), Memory>
    ensures ok { OnOk result (into.new.items ≡ into.old.items ++ bytes_of_samples samples.now) }
    ensures err { OnErr result (into.new.items ≡ into.old.items) }
{
    let start = into.len();
    into.resize(start + 2 * samples.len(), 0)?;
    LittleEndian::write_i16_into(samples, &mut into[start..]);
    Ok(())
}

#[cfg(test)]
mod tests {
    use super::*;
    use std::test::Fail;

    /// Two channels, and samples behind what is there: chuckfix writes neither.
    #[test]
    fn a_sheet_of_two_channels(rt: HostRuntime) -> Result<(), Fail> {
        let header = header(500_000_000, 2);
        assert_eq!(rt;
            header.as_slice(),
            b"RIFF\x24\x94\x35\x77WAVEfmt \x10\0\0\0\x01\0\x02\0\x44\xac\0\0\x10\xb1\x02\0\x04\0\x10\0data\0\x94\x35\x77".as_slice()
        );
        let mut bytes = Vec::from_slice(rt.alloc(), b"data")?;
        put_frames(&[0, -1, 258, i16::MIN], &mut bytes)?;
        assert_eq!(rt;
            bytes.as_slice(),
            b"data\0\0\xff\xff\x02\x01\0\x80".as_slice()
        );
        Ok(())
    }
}
