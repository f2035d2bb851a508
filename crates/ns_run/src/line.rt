//! The command of a line, to its report.

ghost use Rattle.std.specs.Prelude.{◌≡◌, ◌≤◌, ◌++◌, [], IfOk, Some, map, length, string_bytes};
ghost use Rattle.ns_base.specs.Limits.{InRange};
ghost use Rattle.ns_help.specs.Topics.{text_of as text_of_lem};
ghost use Rattle.ns_lib.specs.Collections.{collections as collections_lem};
ghost use Rattle.ns_run.specs.Letter.{HasLetter};
ghost use Rattle.ns_run.specs.Meaning as spec;
ghost use Rattle.ns_run_files.specs.Programs.{of_format, of_sample, of_texts};
ghost use Rattle.ns_run_files.specs.Task.{Checks};
ghost use Rattle.ns_run_image.specs.Image.{Lists, of_image, work_of};
ghost use Rattle.ns_run_input.specs.Input.{run_of};
ghost use Rattle.ns_run_outcome.specs.Report.{told as told_lem};
ghost use Rattle.ns_run_outcome.specs.Stated.{Reports};
ghost use Rattle.ns_run_words.specs.Application.{AreApplications};
ghost use Rattle.ns_run_words.specs.Forms.{AreFiles, IsSpelledLine};
ghost use Rattle.ns_run_words.specs.Letter.{MayAct, letter_seen};
ghost use Rattle.ns_run_words.specs.Line.{line_seen};
ghost use Rattle.ns_run_words.specs.Options.{denied_by};
ghost use Rattle.ns_run_words.specs.Own.{image_among as image_among_lem};
ghost use Rattle.ns_run_words.specs.Words.{limits_of, quantum_of, sample_number as sample_number_lem};
ghost use Rattle.ns_session_files.specs.Making.{files_named};

use crate::session::on_session;
use ns_base::no_memory::NoMemory;
use ns_base::shelf::Shelf;
use ns_base::text::Text;
use ns_help::topics::text_of;
use ns_help::usage::{HELP, VERSION};
use ns_lib::collections::collections;
use ns_run_files::alone::{on_eval, on_sample};
use ns_run_files::files::on_files;
use ns_run_files::guard::on_build_to;
use ns_run_files::layout::on_format;
use ns_run_files::run::on_run_files;
use ns_run_files::task::Task;
use ns_run_image::exec::on_exec;
use ns_run_image::image::on_image;
use ns_run_image::task::ImageTask;
use ns_run_input::task::RunTask;
use ns_run_outcome::report::{Report, bad_word, told, told_text};
use ns_run_outcome::run::Telling;
use ns_run_outcome::stop::{Stop, or_stop};
use ns_run_words::form::Verb;
use ns_run_words::letter::{Letter, letter_in};
use ns_run_words::options::only_among;
use ns_run_words::own::image_among;
use ns_run_words::words::{Given, Line, sample_number};
use std::alloc::Global;

/// The report of the command of a line.
pub fn on_line<S: Shelf>(alloc: Global, line: Line<'_>, shelf: &mut S) -> Result<Report, Stop>
    requires form { IsSpelledLine (line_seen line) }
    requires range { InRange (limits_of line.given) }
    requires quantum { 1 ≤ quantum_of line.given }
    ensures { Reports S.holds S.misses S.faults S.store_faults shelf.old shelf.new
        (spec.files_of line.entry.verb (line_seen line.entry).options (line_seen line.entry).names) (spec.of_line line.entry.verb (line_seen line.entry)) result }
{
    let Line {
        verb,
        given,
        options,
        names,
        arguments,
    } = line;
    match verb {
        Verb::Check => on_check(alloc, given, names, shelf),
        Verb::Show => on_files(alloc, Task::Show, given.lib, names, shelf),
        Verb::Format => on_layout(alloc, names, shelf),
        Verb::Run => {
            let task = run_task(given, options, arguments);
            on_run(alloc, task, given.lib, names, shelf)
        }
        Verb::Eval => {
            let task = run_task(given, options, arguments);
            on_statements(alloc, task, given.lib, names, shelf)
        }
        Verb::Build => on_build_line(alloc, given.lib, options, names, shelf),
        Verb::Exec => {
            let task = run_task(given, options, arguments);
            on_image_run(alloc, task, names, shelf)
        }
        Verb::Listing => on_listing(alloc, given.members, names, shelf),
        Verb::Session => on_applications(alloc, given, names, shelf),
        Verb::Sample => on_number(alloc, names, shelf),
        Verb::Actors => on_actors(alloc, given, names, shelf),
        Verb::Audit => on_audit(alloc, options, names, shelf),
        Verb::Test => on_tests(alloc, given, options, names, shelf),
        Verb::Snap => on_snapping(alloc, given, names, shelf),
        Verb::Resume => on_first(alloc, ImageTask::Resume, names, shelf),
        Verb::Replay => on_replaying(alloc, given, names, shelf),
        Verb::Library => or_stop(library(alloc)),
        Verb::Help => or_stop(told_text(alloc, HELP)),
        Verb::Explain => or_stop(on_topic(alloc, names)),
        Verb::Version => or_stop(told_text(alloc, VERSION)),
    }
}

/// The report of the check of the program of these files.
fn on_check<S: Shelf>(
    alloc: Global,
    given: Given,
    names: &[String],
    shelf: &mut S,
) -> Result<Report, Stop>
    requires { AreFiles (map string_bytes names.now) }
    ensures { Reports S.holds S.misses S.faults S.store_faults shelf.old shelf.new (map string_bytes names.now)
        (of_texts (Checks given.all given.sends) (map string_bytes names.now) given.lib) result }
{
    let Given {
        all,
        sends,
        lib,
        ..
    } = given;
    on_files(alloc, Task::Check { all, sends }, lib, names, shelf)
}

/// The report of the listing of the image that is the one name.
fn on_listing<S: Shelf>(
    alloc: Global,
    members: bool,
    names: &[String],
    shelf: &mut S,
) -> Result<Report, Stop>
    requires { length names.now ≡ 1 }
    ensures { Reports S.holds S.misses S.faults S.store_faults shelf.old shelf.new (map string_bytes names.now)
        (of_image (Lists members) (map string_bytes names.now)) result }
{
    on_first(alloc, ImageTask::Listing { members }, names, shelf)
}

/// The report of the layout of the file that is the one name.
fn on_layout<S: Shelf>(alloc: Global, names: &[String], shelf: &mut S) -> Result<Report, Stop>
    requires { length names.now ≡ 1 }
    ensures { Reports S.holds S.misses S.faults S.store_faults shelf.old shelf.new
        (map string_bytes names.now) (of_format (map string_bytes names.now)) result }
{
    on_format(alloc, names[0].as_str(), shelf)
}

/// What options ask to be told of a run.
fn telling_of(given: Given) -> Telling
    ensures { result ≡ spec.telling_of given }
{
    Telling {
        classes: None,
        stats: given.stats,
        trace: given.trace,
        truth: given.truth,
        json: given.json,
    }
}

/// A run as options ask for it, with these arguments.
fn run_task<'a>(given: Given, options: &'a [String], arguments: &'a [String]) -> RunTask<'a>
    requires { InRange (limits_of given) }
    ensures is { run_of result ≡ spec.run_asked given (map string_bytes options.now) (map string_bytes arguments.now) }
    ensures range { InRange result.limits }
{
    RunTask {
        telling: telling_of(given),
        limits: given.limits(),
        arguments,
        options,
    }
}

/// The report of the run of the program of these files.
fn on_run<S: Shelf>(
    alloc: Global,
    task: RunTask<'_>,
    lib: bool,
    names: &[String],
    shelf: &mut S,
) -> Result<Report, Stop>
    requires files { AreFiles (map string_bytes names.now) }
    requires range { InRange task.limits }
    ensures { Reports S.holds S.misses S.faults S.store_faults shelf.old shelf.new
        (map string_bytes names.now ++ (run_of task.entry).inputs) (spec.of_running (run_of task.entry) lib (map string_bytes names.now)) result }
{
    on_run_files(alloc, task, lib, names, shelf)
}

/// The report of the actors of a program, whose letter stands in front of the files.
fn on_actors<S: Shelf>(
    alloc: Global,
    given: Given,
    names: &[String],
    shelf: &mut S,
) -> Result<Report, Stop>
    requires letter { HasLetter (map string_bytes names.now) }
    requires files { AreFiles (spec.behind_letter (map string_bytes names.now)) }
    requires range { InRange (limits_of given) }
    ensures { Reports S.holds S.misses S.faults S.store_faults shelf.old shelf.new
        (spec.behind_letter (map string_bytes names.now)) (spec.of_acting given (map string_bytes names.now)) result }
{
    match names {
        [count, sel, argument, files @ ..] => {
            match letter_in(count.as_bytes(), sel.as_bytes(), argument.as_bytes()) {
                Some(letter) => on_letter(alloc, given, letter, files, shelf),
                None => unreachable!(),
            }
        }
        _ => unreachable!(),
    }
}

/// The report of the actors of the program of these files, of which the first gets that letter.
fn on_letter<S: Shelf>(
    alloc: Global,
    given: Given,
    letter: Letter<'_>,
    files: &[String],
    shelf: &mut S,
) -> Result<Report, Stop>
    requires files { AreFiles (map string_bytes files.now) }
    requires range { InRange (limits_of given) }
    requires may { MayAct letter.count letter.sel.now }
    ensures { Reports S.holds S.misses S.faults S.store_faults shelf.old shelf.new (map string_bytes files.now)
        (spec.of_letter given (Some (letter_seen letter.entry)) (map string_bytes files.now)) result }
{
    let limits = given.limits();
    let Letter { count, sel, number } = letter;
    let task = Task::Act {
        limits,
        count,
        sel,
        number,
    };
    on_files(alloc, task, given.lib, files, shelf)
}

/// The report of the tests of the program of these files.
fn on_tests<S: Shelf>(
    alloc: Global,
    given: Given,
    options: &[String],
    names: &[String],
    shelf: &mut S,
) -> Result<Report, Stop>
    requires files { AreFiles (map string_bytes names.now) }
    requires range { InRange (limits_of given) }
    ensures { Reports S.holds S.misses S.faults S.store_faults shelf.old shelf.new (map string_bytes names.now)
        (spec.of_testing given (map string_bytes options.now) (map string_bytes names.now)) result }
{
    let task = Task::Test {
        limits: given.limits(),
        reversed: given.reverse,
        only: only_among(options),
    };
    on_files(alloc, task, given.lib, names, shelf)
}

/// The report of the run of the statements that are the first name.
fn on_statements<S: Shelf>(
    alloc: Global,
    task: RunTask<'_>,
    lib: bool,
    names: &[String],
    shelf: &mut S,
) -> Result<Report, Stop>
    requires one { length names.now ≡ 1 }
    requires range { InRange task.limits }
    ensures { Reports S.holds S.misses S.faults S.store_faults shelf.old shelf.new
        (run_of task.entry).inputs (spec.of_statements (run_of task.entry) lib (map string_bytes names.now)) result }
{
    on_eval(alloc, task, lib, names[0].as_str(), shelf)
}

/// The report of the sample of the number that is the one name.
fn on_number<S: Shelf>(alloc: Global, names: &[String], shelf: &mut S) -> Result<Report, Stop>
    ensures { Reports S.holds S.misses S.faults S.store_faults shelf.old shelf.new
        [] (of_sample (sample_number_lem (map string_bytes names.now))) result }
{
    match sample_number(names) {
        Some(n) => on_sample(alloc, n, shelf),
        None => or_stop(bad_word(alloc, 1)),
    }
}

/// The report of the run of the image that is the one name.
fn on_image_run<S: Shelf>(
    alloc: Global,
    task: RunTask<'_>,
    names: &[String],
    shelf: &mut S,
) -> Result<Report, Stop>
    requires one { length names.now ≡ 1 }
    requires range { InRange task.limits }
    ensures { Reports S.holds S.misses S.faults S.store_faults shelf.old shelf.new
        (map string_bytes names.now ++ (run_of task.entry).inputs) (spec.of_executing (run_of task.entry) (map string_bytes names.now)) result }
{
    on_exec(alloc, task, names[0].as_str(), shelf)
}

/// The report of the session of the applications that these words ask for.
fn on_applications<S: Shelf>(
    alloc: Global,
    given: Given,
    names: &[String],
    shelf: &mut S,
) -> Result<Report, Stop>
    requires asked { AreApplications (map string_bytes names.now) }
    requires few { length names.now ≤ 16 }
    requires range { InRange (limits_of given) }
    requires quantum { 1 ≤ quantum_of given }
    ensures { Reports S.holds S.misses S.faults S.store_faults shelf.old shelf.new (files_named (map string_bytes names.now))
        (spec.of_session given.json given.lib (limits_of given) (quantum_of given) (map string_bytes names.now)) result }
{
    let Given { json, lib, .. } = given;
    let limits = given.limits();
    let quantum = given.quantum();
    on_session(alloc, json, lib, limits, quantum, names, shelf)
}

/// The report of the moves, which stand behind the first name, through the run of the program of that file.
fn on_replaying<S: Shelf>(
    alloc: Global,
    given: Given,
    names: &[String],
    shelf: &mut S,
) -> Result<Report, Stop>
    requires file { AreFiles (spec.first_of (map string_bytes names.now)) }
    requires range { InRange (limits_of given) }
    ensures { Reports S.holds S.misses S.faults S.store_faults shelf.old shelf.new
        (spec.first_of (map string_bytes names.now)) (spec.of_replaying given (map string_bytes names.now)) result }
{
    let limits = given.limits();
    let (file, moves) = names.split_at(1);
    on_files(
        alloc,
        Task::Replay { limits, moves },
        given.lib,
        file,
        shelf,
    )
}

/// The report of the image of a program, which an option names, or the first of the names.
fn on_build_line<S: Shelf>(
    alloc: Global,
    lib: bool,
    options: &[String],
    names: &[String],
    shelf: &mut S,
) -> Result<Report, Stop>
    requires { AreFiles (spec.sources_of (image_among_lem (map string_bytes options.now)) (map string_bytes names.now)) }
    ensures { Reports S.holds S.misses S.faults S.store_faults shelf.old shelf.new
        (spec.files_built (image_among_lem (map string_bytes options.now)) (map string_bytes names.now))
        (spec.of_build_line lib (image_among_lem (map string_bytes options.now)) (map string_bytes names.now)) result }
{
    match image_among(options) {
        Some(image) => on_build_to(alloc, lib, image, names, shelf),
        None => on_building(alloc, lib, names, shelf),
    }
}

/// The report of the snapshot of the program of all files but the first, which names the snapshot.
fn on_snapping<S: Shelf>(
    alloc: Global,
    given: Given,
    names: &[String],
    shelf: &mut S,
) -> Result<Report, Stop>
    requires behind { AreFiles (spec.behind_first (map string_bytes names.now)) }
    requires range { InRange (limits_of given) }
    ensures { Reports S.holds S.misses S.faults S.store_faults shelf.old shelf.new
        (spec.behind_first (map string_bytes names.now)) (spec.of_snapping given (map string_bytes names.now)) result }
{
    let name = names[0].as_str();
    let limits = given.limits();
    let at = given.at();
    let task = Task::Snap { name, limits, at };
    on_files(alloc, task, given.lib, &names[1..], shelf)
}

/// The report of the image of the program of all files but the first, which names the image.
fn on_building<S: Shelf>(
    alloc: Global,
    lib: bool,
    names: &[String],
    shelf: &mut S,
) -> Result<Report, Stop>
    requires { AreFiles (spec.behind_first (map string_bytes names.now)) }
    ensures { Reports S.holds S.misses S.faults S.store_faults shelf.old shelf.new
        (spec.behind_first (map string_bytes names.now)) (spec.of_building lib (map string_bytes names.now)) result }
{
    let image = names[0].as_str();
    on_files(alloc, Task::Build { image }, lib, &names[1..], shelf)
}

/// The report of what is done with the image that is the one name.
fn on_first<S: Shelf>(
    alloc: Global,
    task: ImageTask<'_>,
    names: &[String],
    shelf: &mut S,
) -> Result<Report, Stop>
    requires { length names.now ≡ 1 }
    ensures { Reports S.holds S.misses S.faults S.store_faults shelf.old shelf.new
        (map string_bytes names.now) (of_image (work_of task.entry) (map string_bytes names.now)) result }
{
    on_image(alloc, task, names[0].as_str(), shelf)
}

/// The report of the audit of the image that is the first of two names, of which the other is that of a class.
fn on_audit<S: Shelf>(
    alloc: Global,
    options: &[String],
    names: &[String],
    shelf: &mut S,
) -> Result<Report, Stop>
    requires two { length names.now ≡ 2 }
    ensures { Reports S.holds S.misses S.faults S.store_faults shelf.old shelf.new (spec.first_of (map string_bytes names.now))
        (spec.of_audit (denied_by (map string_bytes options.now)) (map string_bytes names.now)) result }
{
    let class = names[1].as_str();
    on_first(
        alloc,
        ImageTask::Audit { options, class },
        &names[..1],
        shelf,
    )
}

/// The source of the library.
fn library(alloc: Global) -> Result<Report, NoMemory>
    ensures { IfOk result (λ r. r ≡ told_lem collections_lem) }
{
    let source = Text::of(alloc, collections())?;
    Ok(told(alloc, source))
}

/// What the program tells of itself: how it is used, or the text on the one name.
fn on_topic(alloc: Global, names: &[String]) -> Result<Report, NoMemory>
    ensures { IfOk result (λ r. r ≡ spec.of_topic (map string_bytes names.now)) }
{
    match names {
        [] => told_text(alloc, HELP),
        [topic, ..] => on_word(alloc, topic.as_bytes()),
    }
}

/// The text on a word.
fn on_word(alloc: Global, word: &[u8]) -> Result<Report, NoMemory>
    ensures { IfOk result (λ r. r ≡ spec.text_told (text_of_lem word.now)) }
{
    match text_of(word) {
        Some(text) => told_text(alloc, text),
        None => bad_word(alloc, 1),
    }
}
