//! The commands.
/// What the words ask for, without the names of the files.
#[derive(Clone, Copy, PartialEq, Eq)]
pub enum Command {
    /// Whether the files are programs: one line for each, or the first fault.
    Check,
    /// The wake lines of a run of so many samples.
    Wakes(u32),
    /// The text of a run of so many samples, and the samples on a sheet.
    Render(u32),
    /// The numbers of a run of so many samples.
    Stats(u32),
    /// The code of the files, as a listing.
    Code,
    /// The numbers of a run of a second, of the program that this seed gives.
    Load(u32),
}
