ghost use Rattle.std.specs.Prelude.{◌≡◌, ◌⊎◌, ◌≤◌, ℕ, List, Option, []};
ghost use Rattle.std.specs.Prelude.{length, OnOk, IsErrOf};
ghost use Rattle.fixed_point.specs.Wanting.{out_of_memory};
ghost use Rattle.ck_edges.specs.Faults.{HasRisen};
ghost use Rattle.ck_edges.specs.Shelf.{Files, HasBytes, IsLonger, IsAbsent};

use crate::fault::ReadEnd;

/// Files by name.
pub trait Shelf {
    /// The files that are there, where the shelf tells.
    ghost files: { Self → Option Files };

    /// How often a read of this name has failed; the count stands still at the greatest `u64`.
    ghost read_faults: { Self → List ℕ → ℕ };

    /// Reads the whole file of this name into an empty vector, if it has at most `max` bytes, which
    /// are at most 64 MiB.
    ///
    /// `Failed` comes where the shelf couldn't give the file, an absent one among them. After an
    /// error what `into` holds is of no use.
    fn read(&mut self, name: &str, max: usize, into: &mut Vec<u8>) -> Result<(), ReadEnd>
        requires empty { into.old.items ≡ [] }
        requires bound { max ≤ 67108864 }
        ensures same_files { files self.new ≡ files self.old }
        ensures given { OnOk result (HasBytes (files self.old) name.now into.new.items) }
        ensures within { OnOk result (length into.new.items ≤ max) }
        ensures absent { IsAbsent (files self.old) name.now →
            IsErrOf result ReadEnd.Failed ⊎ IsErrOf result (ReadEnd.Memory out_of_memory) }
        ensures failed { IsErrOf result ReadEnd.Failed →
            HasRisen (read_faults self.old name.now) (read_faults self.new name.now) }
        ensures no_fault { (IsErrOf result ReadEnd.Failed → ⊥) →
            read_faults self.new name.now ≡ read_faults self.old name.now }
        ensures long { IsErrOf result ReadEnd.Long → IsLonger (files self.old) name.now max }
        ensures counts { (other : List ℕ) →
            read_faults self.old other ≤ read_faults self.new other };
}
