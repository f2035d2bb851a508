//! The top call: from the words of a command to what is written.

ghost use Rattle.std.specs.Prelude.{◌≡◌, ◌⊎◌, map, None, Some, string_bytes};
ghost use Rattle.ns_base.specs.Count.{Rose};
ghost use Rattle.ns_base.specs.Files.{Files};
ghost use Rattle.ns_base.specs.Shelf.{OnlyRead};
ghost use Rattle.ns_run_outcome.specs.Outcome.{IsEnding, IsWritten, Leaves, LeavesFiles, LeavesStreams, OfFiles};
ghost use Rattle.ns_run_outcome.specs.Report.{bad_word as bad_word_lem};
ghost use Rattle.ns_run.specs.Meaning as spec;
ghost use Rattle.ns_run.specs.Outcome.{HasAFile, NamesMissing, OverTexts, StoresNothing, TellsMissing};
ghost use Rattle.ns_run_outcome.specs.Stated.{Reports};
ghost use Rattle.ns_run_words.specs.Words.{LineReading, first_bad, reading_of};

use crate::line::on_line;
use ns_base::no_memory::NoMemory;
use ns_base::shelf::Shelf;
use ns_base::sink::Sink;
use ns_base::status::Status;
use ns_run_outcome::deliver::deliver;
use ns_run_outcome::keep::{Unkept, keep};
use ns_run_outcome::report::{Report, bad_word};
use ns_run_outcome::stop::{Stop, or_stop};
use ns_run_outcome::styled::styled;
use ns_run_words::words::{BadWord, first_bad, words};
use std::alloc::Global;

/// Carries out the command of these words: reads from the shelf, stores what the command means to
/// store, and writes what it means to `out`, and then to `err`.
pub fn nspk<S: Shelf, O: Sink, E: Sink>(
    alloc: Global,
    words: &[String],
    shelf: &mut S,
    out: &mut O,
    err: &mut E,
) -> Status
    // Over files that are told, the files and the streams are left as the command's meaning says.
    ensures told { (files : Files) → S.holds shelf.old ≡ Some files → Leaves (spec.meaning (map string_bytes words.now) files) result
        (S.holds shelf.old) (S.holds shelf.new) (O.written out.old) (O.written out.new) (E.written err.old) (E.written err.new) }
    // Over any shelf there are texts of the command's files, over which its meaning says how all is left.
    ensures texts { OverTexts (map string_bytes words.now) (λ report. Leaves report result
        (S.holds shelf.old) (S.holds shelf.new) (O.written out.old) (O.written out.new) (E.written err.old) (E.written err.new)) }
    // No command but `build` and `snap` changes a file or stores one.
    ensures only_read { StoresNothing (reading_of (map string_bytes words.now)) → OnlyRead S.holds S.misses S.faults S.store_faults shelf.old shelf.new }

    // Each fault has its cause.
    ensures read_fault { result ≡ Status.ReadFault → Rose (S.faults shelf.old) (S.faults shelf.new) }
    ensures read_fault_there { (files : Files) → S.holds shelf.old ≡ Some files → result ≡ Status.ReadFault →
        HasAFile (reading_of (map string_bytes words.now)) files }
    ensures write_fault { result ≡ Status.WriteFault → (Rose (S.store_faults shelf.old) (S.store_faults shelf.new))
        ⊎ ((Rose (O.faults out.old) (O.faults out.new)) ⊎ (Rose (E.faults err.old) (E.faults err.new))) }
    ensures missing { result ≡ Status.Refused →
        TellsMissing (reading_of (map string_bytes words.now)) (E.written err.old) (E.written err.new) → Rose (S.misses shelf.old) (S.misses shelf.new) }
{
    match work(alloc, words, shelf) {
        Err(Stop::ReadFault) => Status::ReadFault,
        Err(Stop::Memory) => Status::Memory,
        Ok(report) => finish(&report, shelf, out, err),
    }
}

/// Stores and writes what the report says.
fn finish<S: Shelf, O: Sink, E: Sink>(
    report: &Report,
    shelf: &mut S,
    out: &mut O,
    err: &mut E,
) -> Status
    requires { IsEnding report.now.status }
    ensures files { OfFiles (LeavesFiles report.now result) (S.holds shelf.old) (S.holds shelf.new) }
    ensures streams { LeavesStreams report.now result (O.written out.old) (O.written out.new) (E.written err.old) (E.written err.new) }
    ensures only_read { report.now.stored ≡ None → OnlyRead S.holds S.misses S.faults S.store_faults shelf.old shelf.new }
    ensures misses { S.misses shelf.new ≡ S.misses shelf.old }
    ensures no_read_fault { result ≡ Status.ReadFault → ⊥ }
    ensures write_fault { result ≡ Status.WriteFault → (Rose (S.store_faults shelf.old) (S.store_faults shelf.new))
        ⊎ ((Rose (O.faults out.old) (O.faults out.new)) ⊎ (Rose (E.faults err.old) (E.faults err.new))) }
    ensures missing { (reading : LineReading) → result ≡ Status.Refused →
        TellsMissing reading (E.written err.old) (E.written err.new) → NamesMissing reading report.now }
{
    match keep(report, shelf) {
        Err(Unkept::Failed) => Status::WriteFault,
        Err(Unkept::Memory) => Status::Memory,
        Ok(()) => write(report, out, err),
    }
}

/// Writes what the report says.
fn write<O: Sink, E: Sink>(report: &Report, out: &mut O, err: &mut E) -> Status
    requires { IsEnding report.now.status }
    ensures streams { LeavesStreams report.now result (O.written out.old) (O.written out.new) (E.written err.old) (E.written err.new) }
    ensures status { IsWritten report.now.status result }
    ensures write_fault { result ≡ Status.WriteFault → (Rose (O.faults out.old) (O.faults out.new)) ⊎ (Rose (E.faults err.old) (E.faults err.new)) }
    ensures missing { (reading : LineReading) → result ≡ Status.Refused →
        TellsMissing reading (E.written err.old) (E.written err.new) → NamesMissing reading report.now }
{
    if deliver(report, out, err) {
        report.status
    } else {
        Status::WriteFault
    }
}

/// Refuses the command line on which a word that is no text stands behind these: writes which word
/// is the first bad one.
pub fn refuse_cut<O: Sink, E: Sink>(
    alloc: Global,
    words: &[String],
    out: &mut O,
    err: &mut E,
) -> Status
    ensures told { LeavesStreams (bad_word_lem (first_bad (map string_bytes words.now))) result
        (O.written out.old) (O.written out.new) (E.written err.old) (E.written err.new) }
    ensures write_fault { result ≡ Status.WriteFault → (Rose (O.faults out.old) (O.faults out.new)) ⊎ (Rose (E.faults err.old) (E.faults err.new)) }
{
    match bad_word(alloc, first_bad(words)) {
        Err(NoMemory) => Status::Memory,
        Ok(report) => write(&report, out, err),
    }
}

/// The report of the command of these words, of which nothing is stored or written yet.
pub fn work<S: Shelf>(alloc: Global, line: &[String], shelf: &mut S) -> Result<Report, Stop>
    ensures { Reports S.holds S.misses S.faults S.store_faults shelf.old shelf.new
        (spec.files_read (reading_of (map string_bytes line.now))) (spec.meaning_of_texts (map string_bytes line.now)) result }
{
    match words(line) {
        Ok(line) => {
            let json = line.given.json;
            styled(alloc, json, on_line(alloc, line, shelf))
        }
        Err(BadWord(word)) => or_stop(bad_word(alloc, word)),
    }
}
