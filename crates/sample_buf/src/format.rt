ghost use Rattle.std.specs.Prelude.{◌≡◌, ◌≤◌, MatchOption, IfOk, length, map};
ghost use Rattle.sample_buf.specs.Formats.{SaysFormat, SaysNone};
ghost use Rattle.sample_buf.specs.Frames.{frames_of, half_of_both, sample_of, whole_frames};

use byteorder::{ByteOrder, LittleEndian};
use fixed_point::Memory;
use std::alloc::Global;

/// The most frames a second.
const MAX_RATE: u32 = 192_000;

/// What a chunk `fmt ` says of the samples.
#[derive(Clone, Copy)]
pub(crate) struct Format {
    /// The samples of a frame: 1 or 2.
    pub(crate) channels: u16,
    /// Frames a second: 1 to 192,000.
    pub(crate) rate: u32,
}

impl Format {
    /// The format that the body of a chunk says, or none where it says no such one.
    pub(crate) fn read(body: &[u8]) -> Option<Format>
        ensures { MatchOption result (SaysNone body.now) (SaysFormat body.now) }
    {
        if body.len() < 16 {
            return None;
        }
        let coding = LittleEndian::read_u16(body);
        let channels = LittleEndian::read_u16(&body[2..]);
        let rate = LittleEndian::read_u32(&body[4..]);
        let bits = LittleEndian::read_u16(&body[14..]);
        if coding != 1 || bits != 16 || channels < 1 || channels > 2 {
            return None;
        }
        if rate < 1 || rate > MAX_RATE {
            return None;
        }
        Some(Format { channels, rate })
    }

    /// The frames that these bytes have, without what makes no whole one at their end.
    pub(crate) fn frames(self, alloc: Global, bytes: &[u8]) -> Result<Vec<i16>, Memory>
        ensures { IfOk result (λ frames. frames.items ≡ frames_of self.channels bytes.now) }
    {
        match self.channels {
            1 => of_one_channel(alloc, bytes),
            _ => of_two_channels(alloc, bytes),
        }
    }
}

/// The frames of one channel.
fn of_one_channel(alloc: Global, bytes: &[u8]) -> Result<Vec<i16>, Memory>
    ensures { IfOk result (λ frames. frames.items ≡ map sample_of (whole_frames 2 bytes.now)) }
{
    let (samples, _) = bytes.as_chunks::<2>();
    Ok(
        samples
            .iter()
            .map(|sample| LittleEndian::read_i16(sample))
            .collect(alloc)?,
    )
}

/// The frames of two channels.
fn of_two_channels(alloc: Global, bytes: &[u8]) -> Result<Vec<i16>, Memory>
    ensures { IfOk result (λ frames. frames.items ≡ map half_of_both (whole_frames 4 bytes.now)) }
{
    let (frames, _) = bytes.as_chunks::<4>();
    Ok(frames.iter().map(|frame| half(frame)).collect(alloc)?)
}

/// The half of the left and the right sample of a frame, rounded down.
fn half(frame: &[u8; 4]) -> i16
    ensures { result ≡ half_of_both frame.now }
{
    let left = LittleEndian::read_i16(frame);
    let right = LittleEndian::read_i16(&frame[2..]);
    (i32::from(left) + i32::from(right)).div_euclid(2) as i16
}
