//! The answer to a command line, whether or not each of its words is a text.

ghost use Rattle.std.specs.Prelude.{◌≡◌, ◌⊎◌, false, map, Some, string_bytes, true};
ghost use Rattle.ns_base.specs.Count.{Rose};
ghost use Rattle.ns_base.specs.Files.{Files};
ghost use Rattle.ns_base.specs.Shelf.{OnlyRead};
ghost use Rattle.ns_run_outcome.specs.Outcome.{Leaves, LeavesStreams};
ghost use Rattle.ns_run_outcome.specs.Report.{bad_word};
ghost use Rattle.ns_run.specs.Meaning.{meaning};
ghost use Rattle.ns_run.specs.Outcome.{HasAFile, OverTexts, StoresNothing, TellsMissing};
ghost use Rattle.ns_run_words.specs.Words.{first_bad, reading_of};

use ns_base::shelf::Shelf;
use ns_base::sink::Sink;
use ns_base::status::Status;
use ns_run::top::{nspk, refuse_cut};
use std::alloc::Global;

/// Carries out the command of these words. Where the line is `cut` behind them, by a word that is no
/// text, that word or a bad one before it is refused, and no file is read or stored.
pub fn answer<S: Shelf, O: Sink, E: Sink>(
    alloc: Global,
    words: &[String],
    cut: bool,
    shelf: &mut S,
    out: &mut O,
    err: &mut E,
) -> Status
    ensures told { cut ≡ false → (files : Files) → S.holds shelf.old ≡ Some files →
        Leaves (meaning (map string_bytes words.now) files) result
        (S.holds shelf.old) (S.holds shelf.new) (O.written out.old) (O.written out.new) (E.written err.old) (E.written err.new) }
    ensures texts { cut ≡ false → OverTexts (map string_bytes words.now) (λ report. Leaves report result
        (S.holds shelf.old) (S.holds shelf.new) (O.written out.old) (O.written out.new) (E.written err.old) (E.written err.new)) }
    ensures only_read { cut ≡ false → StoresNothing (reading_of (map string_bytes words.now)) →
        OnlyRead S.holds S.misses S.faults S.store_faults shelf.old shelf.new }
    ensures read_fault { cut ≡ false → result ≡ Status.ReadFault → Rose (S.faults shelf.old) (S.faults shelf.new) }
    ensures read_fault_there { cut ≡ false → (files : Files) → S.holds shelf.old ≡ Some files → result ≡ Status.ReadFault →
        HasAFile (reading_of (map string_bytes words.now)) files }
    ensures write_fault { result ≡ Status.WriteFault → (Rose (S.store_faults shelf.old) (S.store_faults shelf.new))
        ⊎ ((Rose (O.faults out.old) (O.faults out.new)) ⊎ (Rose (E.faults err.old) (E.faults err.new))) }
    ensures missing { cut ≡ false → result ≡ Status.Refused →
        TellsMissing (reading_of (map string_bytes words.now)) (E.written err.old) (E.written err.new) → Rose (S.misses shelf.old) (S.misses shelf.new) }
    ensures cut { cut ≡ true → LeavesStreams (bad_word (first_bad (map string_bytes words.now))) result
        (O.written out.old) (O.written out.new) (E.written err.old) (E.written err.new) }
    ensures cut_leaves_files { cut ≡ true → shelf.new ≡ shelf.old }
{
    if cut {
        refuse_cut(alloc, words, out, err)
    } else {
        nspk(alloc, words, shelf, out, err)
    }
}
