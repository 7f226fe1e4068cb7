//! Writing what is reported.
ghost use Rattle.std.specs.Prelude.{◌≡◌, ◌≢◌, [], OnOk, OnErr};
ghost use Rattle.ck_edges.specs.Faults.{HasRisen};
ghost use Rattle.ck_edges.specs.Sink.{Appends, AppendsFront};

use ck_edges::{Failed, Sink};

/// Writes a piece of a text; an empty piece is no write.
pub(crate) fn write_piece<O: Sink>(piece: &[u8], out: &mut O) -> Result<(), Failed>
    ensures whole { OnOk result (Appends (O.written out.old) (O.written out.new) piece.now) }
    ensures part { OnErr result (AppendsFront (O.written out.old) (O.written out.new) piece.now) }
    ensures some { OnErr result (piece.now ≢ []) }
    ensures failed { OnErr result (HasRisen (O.write_faults out.old) (O.write_faults out.new)) }
    ensures no_fault { OnOk result (O.write_faults out.new ≡ O.write_faults out.old) }
{
    if piece.is_empty() {
        return Ok(());
    }
    out.write(piece)
}
