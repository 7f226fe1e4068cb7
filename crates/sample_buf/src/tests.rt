//! Files whose bytes are written by hand from the format, and what they are by it. No command reads
//! waves yet, so no case can show these.

ghost use Rattle.std.specs.Prelude.{◌≤◌, length};

use crate::{WaveFault, wave};
use std::alloc::Global;
use std::test::Fail;

/// One channel at 44,100 frames a second: 16384, -16384.
const TWO_FRAMES: &[u8] = b"RIFF\x28\0\0\0WAVE\
    fmt \x10\0\0\0\x01\0\x01\0\x44\xac\0\0\x88\x58\x01\0\x02\0\x10\0\
    data\x04\0\0\0\0\x40\0\xc0";

/// Two channels at 8,000: a format of 18 bytes, a chunk of odd size with its padding, samples of a
/// size past the end, and three bytes behind the last whole frame.
const TWO_CHANNELS: &[u8] = b"RIFF\xff\xff\xff\xffWAVE\
    fmt \x12\0\0\0\x01\0\x02\0\x40\x1f\0\0\0\x7d\0\0\x04\0\x10\0\0\0\
    LIST\x03\0\0\0abc\0\
    data\xff\xff\xff\xff\x01\0\xfe\xff\xff\x7f\xff\x7f\0\x80\xff\x7f\x07\0\x07";

/// The rate and the frames of a wave of few bytes.
fn read(alloc: Global, file: &[u8]) -> Result<(u32, Vec<i16>), WaveFault>
    requires { length file.now ≤ 200 }
{
    let wave = wave(alloc, file)?;
    Ok((wave.rate, wave.frames.into_vec()))
}

#[test]
fn frames_of_one_channel_and_of_two(rt: HostRuntime) -> Result<(), Fail> {
    let (rate, frames) = read(rt.alloc(), TWO_FRAMES).ok().ok_or("one channel")?;
    assert_eq!(rt; rate, 44_100);
    assert_eq!(rt; frames.as_slice(), [16_384, -16_384].as_slice());
    let (rate, frames) = read(rt.alloc(), TWO_CHANNELS).ok().ok_or("two channels")?;
    assert_eq!(rt; rate, 8_000);
    assert_eq!(rt; frames.as_slice(), [-1, 32_767, -1].as_slice());
    Ok(())
}

/// Where the file is no wave.
fn fault(alloc: Global, file: &[u8]) -> Option<u32>
    requires { length file.now ≤ 200 }
{
    match wave(alloc, file) {
        Err(WaveFault::Wave { at }) => Some(at),
        _ => None,
    }
}

#[test]
fn a_file_that_is_cut(rt: HostRuntime) -> Result<(), Fail> {
    let (_, frames) = read(rt.alloc(), &TWO_FRAMES[..46]).ok().ok_or("one frame")?;
    assert_eq!(rt; frames.as_slice(), [16_384].as_slice());
    let (_, frames) = read(rt.alloc(), &TWO_FRAMES[..44]).ok().ok_or("no frame")?;
    assert_eq!(rt; frames.len(), 0);
    assert_eq!(rt; fault(rt.alloc(), &TWO_FRAMES[..40]), Some(36));
    assert_eq!(rt; fault(rt.alloc(), &TWO_FRAMES[..36]), Some(36));
    assert_eq!(rt; fault(rt.alloc(), &TWO_FRAMES[..35]), Some(12));
    assert_eq!(rt; fault(rt.alloc(), &TWO_FRAMES[..12]), Some(12));
    assert_eq!(rt; fault(rt.alloc(), &TWO_FRAMES[..11]), Some(0));
    Ok(())
}

/// Each file has one chunk that may not stand where it stands.
#[test]
fn chunks_that_may_not_stand_there(rt: HostRuntime) {
    let alloc = rt.alloc();
    // Big endian, and no wave.
    assert_eq!(rt; fault(alloc, b"RIFX\0\0\0\0WAVE"), Some(0));
    assert_eq!(rt; fault(alloc, b"RIFF\0\0\0\0AVI "), Some(0));
    // Nothing behind the front, a chunk that runs past the end, and samples with no format.
    assert_eq!(rt; fault(alloc, b"RIFF\0\0\0\0WAVE"), Some(12));
    assert_eq!(rt; fault(alloc, b"RIFF\0\0\0\0WAVELIST\x02\0\0\0a"), Some(12));
    assert_eq!(rt;
        fault(alloc, b"RIFF\0\0\0\0WAVELIST\x01\0\0\0a\0data\0\0\0\0"),
        Some(22)
    );
    // Padding that is missing at the end, where no samples came.
    assert_eq!(rt; fault(alloc, b"RIFF\0\0\0\0WAVELIST\x01\0\0\0a"), Some(21));
}

/// A format of floats, of no and of three channels, of rates 0 and 192,001, of 8 bits, and one of
/// 14 bytes.
#[test]
fn formats_that_are_not_played(rt: HostRuntime) {
    let alloc = rt.alloc();
    assert_eq!(rt;
        fault(
            alloc,
            b"RIFF\0\0\0\0WAVEfmt \x10\0\0\0\x03\0\x01\0\x40\x1f\0\0\0\0\0\0\0\0\x10\0"
        ),
        Some(12)
    );
    assert_eq!(rt;
        fault(
            alloc,
            b"RIFF\0\0\0\0WAVEfmt \x10\0\0\0\x01\0\0\0\x40\x1f\0\0\0\0\0\0\0\0\x10\0"
        ),
        Some(12)
    );
    assert_eq!(rt;
        fault(
            alloc,
            b"RIFF\0\0\0\0WAVEfmt \x10\0\0\0\x01\0\x03\0\x40\x1f\0\0\0\0\0\0\0\0\x10\0"
        ),
        Some(12)
    );
    assert_eq!(rt;
        fault(
            alloc,
            b"RIFF\0\0\0\0WAVEfmt \x10\0\0\0\x01\0\x01\0\0\0\0\0\0\0\0\0\0\0\x10\0"
        ),
        Some(12)
    );
    assert_eq!(rt;
        fault(
            alloc,
            b"RIFF\0\0\0\0WAVEfmt \x10\0\0\0\x01\0\x01\0\x01\xee\x02\0\0\0\0\0\0\0\x10\0"
        ),
        Some(12)
    );
    assert_eq!(rt;
        fault(
            alloc,
            b"RIFF\0\0\0\0WAVEfmt \x10\0\0\0\x01\0\x01\0\x40\x1f\0\0\0\0\0\0\0\0\x08\0"
        ),
        Some(12)
    );
    assert_eq!(rt;
        fault(
            alloc,
            b"RIFF\0\0\0\0WAVEfmt \x0e\0\0\0\x01\0\x01\0\x40\x1f\0\0\0\0\0\0\0\0"
        ),
        Some(12)
    );
}

/// Two formats, of which the second counts: two channels at 8,000, then one at 192,000.
const TWO_FORMATS: &[u8] = b"RIFF\0\0\0\0WAVE\
    fmt \x10\0\0\0\x01\0\x02\0\x40\x1f\0\0\0\0\0\0\0\0\x10\0\
    fmt \x10\0\0\0\x01\0\x01\0\0\xee\x02\0\0\0\0\0\0\0\x10\0\
    data\x05\0\0\0\x01\0\xff\xff\x07\
    data\x02\0\0\0\x09\0";

#[test]
fn the_last_format_and_the_first_samples(rt: HostRuntime) -> Result<(), Fail> {
    let (rate, frames) = read(rt.alloc(), TWO_FORMATS).ok().ok_or("one channel")?;
    assert_eq!(rt; rate, 192_000);
    assert_eq!(rt; frames.as_slice(), [1, -1].as_slice());
    Ok(())
}
