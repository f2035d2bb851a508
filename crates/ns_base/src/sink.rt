//! Where bytes go.

ghost use Rattle.std.specs.Prelude.{◌≡◌, ℕ, List, ◌≤◌, length, Option, OnOk, OnErr};
ghost use Rattle.ns_base.specs.Count.{Rose};
ghost use Rattle.ns_base.specs.Sink.{WrotePrefix, with_bytes};

/// The most bytes that are put to a sink at once.
pub const PIECE: usize = 4096;

/// A piece was not taken whole.
#[derive(Clone, Copy)]
pub struct SinkFailed;

/// A stream of bytes. Its count never falls, and where it stands at the greatest number of 64 bits
/// it stays there.
pub trait Sink {
    /// The bytes so far, where the sink tells them.
    ghost written: { Self → Option (List ℕ) };

    /// How many puts failed.
    ghost faults: { Self → ℕ };

    /// Writes the piece after what was written. Where it fails, only the first bytes of the piece
    /// were written, perhaps none.
    fn put(&mut self, piece: &[u8]) -> Result<(), SinkFailed>
        requires { length piece.now ≤ PIECE }

        ensures faults { faults self.old ≤ faults self.new }
        ensures ok { OnOk result (written self.new ≡ with_bytes piece.now (written self.old)) }
        ensures err { OnErr result (WrotePrefix piece.now (written self.old) (written self.new)) }
        ensures failed { OnErr result (Rose (faults self.old) (faults self.new)) };
}
