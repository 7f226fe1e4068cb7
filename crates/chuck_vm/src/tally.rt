ghost use Rattle.std.specs.Prelude.{◌≡◌};

/// The numbers of a run. A count stops at the greatest number of 64 bits.
#[derive(Clone, Copy, PartialEq, Eq)]
pub struct Tally {
    /// Samples that were made.
    pub samples: u64,
    /// Slices of shreds that ran.
    pub wakes: u64,
    /// Slices that trapped.
    pub traps: u64,
    /// Numbers that shreds were given.
    pub shreds: u64,
    /// Objects that were made, `dac` and `blackhole` with them.
    pub made: u64,
    /// Instructions that the slices began.
    pub instructions: u64,
}

impl Tally {
    /// The numbers before any run.
    pub fn new() -> Tally
        ensures { result ≡ record {
          samples = 0;
          wakes = 0;
          traps = 0;
          shreds = 0;
          made = 0;
          instructions = 0;
        } }
    {
        Tally {
            samples: 0,
            wakes: 0,
            traps: 0,
            shreds: 0,
            made: 0,
            instructions: 0,
        }
    }
}
