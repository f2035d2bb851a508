//! What the process comes to, over a system that may tell its words, its files and its streams.

ghost use Rattle.std.specs.Prelude.{◌≡◌, ◌≤◌, ℕ, List, Some, drop, false, true};
ghost use Rattle.std.specs.Process.{exit_status};
ghost use Rattle.ns_base.specs.Files.{Files};
ghost use Rattle.ns_run.specs.Meaning.{meaning};
ghost use Rattle.ns_run_outcome.specs.Outcome.{Leaves, LeavesStreams};
ghost use Rattle.ns_run_outcome.specs.Report.{bad_word};
ghost use Rattle.ns_run_words.specs.Words.{first_bad};
ghost use Rattle.ns_system.specs.Fault.{fault_line};
ghost use Rattle.ns_system.specs.Line.{AreWords};
ghost use Rattle.nspk.specs.Ends.{Ends};

use crate::answer::answer;
use ns_base::shelf::Shelf;
use ns_base::sink::Sink;
use ns_base::status::Status;
use ns_system::arguments::{Words, arguments};
use ns_system::fault::tell_fault;
use ns_system::telling::{TellingShelf, TellingSink};
use std::alloc::Global;
use std::process::ExitCode;

/// Answers the command line, tells on `err` where it failed, and gives the status with which the process ends: that of the command.
pub fn ended<W: Words, S: TellingShelf, O: TellingSink, E: Sink>(
    alloc: Global,
    words: &W,
    shelf: &mut S,
    out: &mut O,
    err: &mut E,
) -> ExitCode
    ensures one_of_seven { exit_status result ≤ 6 }
    ensures told { (told : List (List ℕ)) → W.words words.now ≡ Some told → (texts : List (List ℕ)) → AreWords (drop 1 told) texts false
        → (files : Files) → S.holds shelf.old ≡ Some files → Ends E.written E.faults
        (fault_line (S.unread shelf.new) (S.unstored shelf.new) (S.store_faults shelf.new) (O.faults out.new)) (λ status stood.
        Leaves (meaning texts files) status (S.holds shelf.old) (S.holds shelf.new) (O.written out.old) (O.written out.new) (E.written err.old) stood)
        err.new result }
    ensures cut { (told : List (List ℕ)) → W.words words.now ≡ Some told → (texts : List (List ℕ)) → AreWords (drop 1 told) texts true
        → Ends E.written E.faults
        (fault_line (S.unread shelf.new) (S.unstored shelf.new) (S.store_faults shelf.new) (O.faults out.new)) (λ status stood.
        LeavesStreams (bad_word (first_bad texts)) status (O.written out.old) (O.written out.new) (E.written err.old) stood) err.new result }
    ensures cut_leaves_files { (told : List (List ℕ)) → W.words words.now ≡ Some told → (texts : List (List ℕ)) → AreWords (drop 1 told) texts true
        → shelf.new ≡ shelf.old }
{
    let status = status(alloc, words, shelf, out, err);
    tell_fault(status, shelf, out, err);
    ExitCode::from(status.exit_code())
}

/// Carries out the command line, and answers how it ended. Where no memory is found for its words, nothing is done.
#[tactic(auto, using(crate::proofs::Words::same_words))]
fn status<W: Words, S: Shelf, O: Sink, E: Sink>(
    alloc: Global,
    words: &W,
    shelf: &mut S,
    out: &mut O,
    err: &mut E,
) -> Status
    ensures told { (told : List (List ℕ)) → W.words words.now ≡ Some told → (texts : List (List ℕ)) → AreWords (drop 1 told) texts false
        → (files : Files) → S.holds shelf.old ≡ Some files → Leaves (meaning texts files) result
        (S.holds shelf.old) (S.holds shelf.new) (O.written out.old) (O.written out.new) (E.written err.old) (E.written err.new) }
    ensures cut { (told : List (List ℕ)) → W.words words.now ≡ Some told → (texts : List (List ℕ)) → AreWords (drop 1 told) texts true
        → LeavesStreams (bad_word (first_bad texts)) result
        (O.written out.old) (O.written out.new) (E.written err.old) (E.written err.new) }
    ensures cut_leaves_files { (told : List (List ℕ)) → W.words words.now ≡ Some told → (texts : List (List ℕ)) → AreWords (drop 1 told) texts true
        → shelf.new ≡ shelf.old }
{
    match arguments(words, alloc) {
        Ok(line) => answer(alloc, line.words.as_slice(), line.cut, shelf, out, err),
        Err(_) => Status::Memory,
    }
}
