use ck_base::List;

/// Bytes of one wave file.
pub const MAX_WAVE_BYTES: usize = 4_194_304;

/// A wave, of one channel: where the file has two, each frame is the half of both, rounded down.
#[derive(Drop)]
pub struct Wave {
    /// Frames a second: 1 to 192,000.
    pub rate: u32,
    /// The frames in order, each from -32,768 to 32,767.
    pub frames: List<i16>,
}
