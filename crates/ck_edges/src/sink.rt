ghost use Rattle.std.specs.Prelude.{◌≡◌, ◌≤◌, ℕ, List, Option, OnOk, OnErr};
ghost use Rattle.ck_edges.specs.Faults.{HasRisen};
ghost use Rattle.ck_edges.specs.Sink.{Appends, AppendsFront};

use crate::fault::Failed;

/// Where bytes go, one after another.
pub trait Sink {
    /// The bytes that it has taken, where it tells.
    ghost written: { Self → Option (List ℕ) };

    /// How often a write has failed; the count stands still at the greatest `u64`.
    ghost write_faults: { Self → ℕ };

    /// Takes the bytes, all of them or, where it failed, some front of them.
    fn write(&mut self, bytes: &[u8]) -> Result<(), Failed>
        ensures whole { OnOk result (Appends (written self.old) (written self.new) bytes.now) }
        ensures part { OnErr result (AppendsFront (written self.old) (written self.new) bytes.now) }
        ensures failed { OnErr result (HasRisen (write_faults self.old) (write_faults self.new)) }
        ensures no_fault { OnOk result (write_faults self.new ≡ write_faults self.old) }
        ensures count { write_faults self.old ≤ write_faults self.new };
}
