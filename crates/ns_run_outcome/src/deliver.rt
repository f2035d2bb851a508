//! Writing a report to the streams, in pieces.

ghost use Rattle.std.specs.Prelude.{◌≡◌, ◌⊎◌, ◌≤◌};
ghost use Rattle.std.specs.Bool.{OnTrue, OnFalse};
ghost use Rattle.ns_base.specs.Count.{Rose};
ghost use Rattle.ns_base.specs.Sink.{WrotePrefix, with_bytes};
ghost use Rattle.ns_run_outcome.specs.Outcome.{IsCut};
ghost use Rattle.ns_run_outcome.specs.Pieces as spec;

use crate::report::Report;
use ns_base::sink::{PIECE, Sink};

/// Writes what is to be written, `err` after all of `out`. True where the sinks took all of it;
/// after a piece that was refused nothing more is put.
pub fn deliver<O: Sink, E: Sink>(report: &Report, out: &mut O, err: &mut E) -> bool
    ensures out { OnTrue result (O.written out.new ≡ with_bytes report.now.out (O.written out.old)) }
    ensures err { OnTrue result (E.written err.new ≡ with_bytes report.now.err (E.written err.old)) }
    ensures cut { OnFalse result (IsCut report.now (O.written out.old) (O.written out.new) (E.written err.old) (E.written err.new)) }

    ensures out_faults { O.faults out.old ≤ O.faults out.new }
    ensures err_faults { E.faults err.old ≤ E.faults err.new }
    ensures failed { OnFalse result ((Rose (O.faults out.old) (O.faults out.new)) ⊎ (Rose (E.faults err.old) (E.faults err.new))) }
{
    if !put_all(out, report.out.bytes()) {
        return false;
    }
    put_all(err, report.err.bytes())
}

/// Writes bytes in pieces, none of them empty. True where the sink took all of them.
#[tactic(auto, using(crate::proofs::PieceLaws::with_piece))]
fn put_all<O: Sink>(out: &mut O, bytes: &[u8]) -> bool
    ensures all { OnTrue result (O.written out.new ≡ with_bytes bytes.now (O.written out.old)) }
    ensures part { OnFalse result (WrotePrefix bytes.now (O.written out.old) (O.written out.new)) }
    ensures faults { O.faults out.old ≤ O.faults out.new }
    ensures failed { OnFalse result (Rose (O.faults out.old) (O.faults out.new)) }
{
    let mut done = 0;
    while done < bytes.len() {
        let (_, left) = bytes.split_at(done);
        let n = piece_len(left.len());
        let (piece, _) = left.split_at(n);
        match out.put(piece) {
            Ok(()) => done += n,
            Err(_) => return false,
        }
    }
    true
}

/// How many bytes the next piece has, by how many are left.
fn piece_len(left: usize) -> usize
    ensures { result ≡ spec.piece_len left }
{
    left.min(PIECE)
}
