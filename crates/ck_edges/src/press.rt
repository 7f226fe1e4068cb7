ghost use Rattle.std.specs.Prelude.{◌≡◌, ◌≤◌, ℕ, List, Option};
ghost use Rattle.std.specs.Prelude.{Bool, true, false, OnOk, OnErr};
ghost use Rattle.ck_edges.specs.Faults.{HasRisen};
ghost use Rattle.ck_edges.specs.Press.{Sheet, with_begun, with_written, with_ended};
ghost use Rattle.ck_edges.specs.Press.{Changes, WritesFront};

use crate::fault::Failed;

/// Where named sheets of bytes are pressed, one at a time.
pub trait Press {
    /// The sheets begun so far, where it tells.
    ghost sheets: { Self → Option (List Sheet) };

    /// Whether the last sheet stands unended.
    ghost is_open: { Self → Bool };

    /// How often a call has failed; the count stands still at the greatest `u64`.
    ghost press_faults: { Self → ℕ };

    /// Begins a sheet of this name. Where it failed there is no new sheet.
    fn begin(&mut self, name: &str) -> Result<(), Failed>
        requires { is_open self.old ≡ false }
        ensures begun { OnOk result
            (Changes (sheets self.old) (sheets self.new) (with_begun name.now)) }
        ensures open { OnOk result (is_open self.new ≡ true) }
        ensures none { OnErr result
            ((sheets self.new ≡ sheets self.old) × (is_open self.new ≡ false)) }
        ensures failed { OnErr result (HasRisen (press_faults self.old) (press_faults self.new)) }
        ensures no_fault { OnOk result (press_faults self.new ≡ press_faults self.old) }
        ensures count { press_faults self.old ≤ press_faults self.new };

    /// Adds the bytes to the open sheet, all of them or, where it failed, some front of them.
    fn write(&mut self, bytes: &[u8]) -> Result<(), Failed>
        requires { is_open self.old ≡ true }
        ensures whole { OnOk result
            (Changes (sheets self.old) (sheets self.new) (with_written bytes.now)) }
        ensures part { OnErr result (WritesFront (sheets self.old) (sheets self.new) bytes.now) }
        ensures open { is_open self.new ≡ true }
        ensures failed { OnErr result (HasRisen (press_faults self.old) (press_faults self.new)) }
        ensures no_fault { OnOk result (press_faults self.new ≡ press_faults self.old) }
        ensures count { press_faults self.old ≤ press_faults self.new };

    /// Ends the open sheet. Where it failed the sheet stays unended.
    fn end(&mut self) -> Result<(), Failed>
        requires { is_open self.old ≡ true }
        ensures ended { OnOk result (Changes (sheets self.old) (sheets self.new) with_ended) }
        ensures closed { OnOk result (is_open self.new ≡ false) }
        ensures none { OnErr result
            ((sheets self.new ≡ sheets self.old) × (is_open self.new ≡ true)) }
        ensures failed { OnErr result (HasRisen (press_faults self.old) (press_faults self.new)) }
        ensures no_fault { OnOk result (press_faults self.new ≡ press_faults self.old) }
        ensures count { press_faults self.old ≤ press_faults self.new };
}
