//! What a command does with its files.

ghost use Rattle.std.specs.Prelude.{◌≡◌, ◌≤◌, map, ℕ, List, Some, All, IfOk, IsErrOf, length, string_bytes};
ghost use Rattle.ns_base.specs.Count.{Rose};
ghost use Rattle.ns_load.specs.declared.fault.LoadCause.TheVariants.{ReadFault};
ghost use Rattle.ns_run_outcome.specs.Outcome.{IsMissing};
ghost use Rattle.ns_run_outcome.specs.Report.{told as told_lem};
ghost use Rattle.ns_print.specs.Printed.{printed};
ghost use Rattle.ns_run_files.specs.Programs as spec;
ghost use Rattle.ns_run_files.specs.Refusal.{IsReadFault, IsRefusal, IsRefusedFor};
ghost use Rattle.ns_run_files.specs.Task.{RunsInRange, task_of};
ghost use Rattle.ns_run_outcome.specs.Stated.{Reports};
ghost use Rattle.ns_scope.specs.Whole.{NamesFile, IsWhole};
ghost use Rattle.ns_tree.specs.Flat.{flat};
ghost use Rattle.ns_tree.specs.PlainOf.{unit_of};
ghost use Rattle.ns_run_words.specs.Forms.{AreFiles};

use crate::acting::on_acts;
use crate::build::on_build;
use crate::checks::on_checks;
use crate::replay::on_replay;
use crate::snap::on_snap;
use crate::task::Task;
use crate::testing::on_tests;
use ns_base::no_memory::NoMemory;
use ns_base::place::Place;
use ns_base::shelf::Shelf;
use ns_base::text::Text;
use ns_load::fault::{LoadCause, LoadFault};
use ns_load::load::load;
use ns_load::names::names_of;
use ns_print::print::print;
use ns_run_outcome::cause::{spelling_name, static_name};
use ns_run_outcome::report::{Report, refused_file, refused_text, told, told_text};
use ns_run_outcome::stop::{Stop, or_stop};
use ns_scope::program::Program;
use ns_static_rules::fault::StaticCause;
use ns_tree::tree::Unit;
use std::alloc::Global;

/// The report of what is done with the files of these names.
pub fn on_files<S: Shelf>(
    alloc: Global,
    task: Task<'_>,
    lib: bool,
    names: &[String],
    shelf: &mut S,
) -> Result<Report, Stop>
    requires files { AreFiles (map string_bytes names.now) }
    requires range { RunsInRange (task_of task) }
    ensures { Reports S.holds S.misses S.faults S.store_faults shelf.old shelf.new
        (map string_bytes names.now) (spec.of_texts (task_of task.entry) (map string_bytes names.now) lib) result }
{
    on_named(alloc, task, lib, names, shelf)
}

/// That report. Where it refuses a file as one that isn't there, whatever its name, the count of such files rose.
pub fn on_named<S: Shelf>(
    alloc: Global,
    task: Task<'_>,
    lib: bool,
    names: &[String],
    shelf: &mut S,
) -> Result<Report, Stop>
    requires files { AreFiles (map string_bytes names.now) }
    requires range { RunsInRange (task_of task) }
    ensures reports { Reports S.holds S.misses S.faults S.store_faults shelf.old shelf.new
        (map string_bytes names.now) (spec.of_texts (task_of task.entry) (map string_bytes names.now) lib) result }
    ensures missing { IfOk result (λ r. (name : List ℕ) → IsMissing name r → Rose (S.misses shelf.old) (S.misses shelf.new)) }
{
    match names_of(alloc, names) {
        Ok(texts) => on_texts(alloc, task, lib, names, texts.as_slice(), shelf),
        Err(NoMemory) => Err(Stop::Memory),
    }
}

/// The report of what is done with the files of these names, which are texts too.
fn on_texts<S: Shelf>(
    alloc: Global,
    task: Task<'_>,
    lib: bool,
    names: &[String],
    texts: &[Text],
    shelf: &mut S,
) -> Result<Report, Stop>
    requires some { 1 ≤ length texts.now }
    requires few { length texts.now ≤ 16 }
    requires named { All NamesFile texts.now }
    requires same { texts.now ≡ map string_bytes names.now }
    requires range { RunsInRange (task_of task) }
    ensures reports { Reports S.holds S.misses S.faults S.store_faults shelf.old shelf.new
        texts.now (spec.of_texts (task_of task.entry) texts.now lib) result }
    ensures missing { IfOk result (λ r. (name : List ℕ) → IsMissing name r → Rose (S.misses shelf.old) (S.misses shelf.new)) }
{
    match load(alloc, shelf, texts, lib) {
        Ok(program) => or_stop(on_program(alloc, task, names, program)),
        Err(fault) => on_fault(alloc, names, fault),
    }
}

/// The report of files that are no program.
pub fn on_fault(alloc: Global, names: &[String], fault: LoadFault) -> Result<Report, Stop>
    ensures told { IfOk result (λ r. r ≡ spec.of_fault (map string_bytes names.now) fault) }
    ensures refusal { IfOk result (λ _. IsRefusal fault) }
    ensures read_fault { IsErrOf result Stop.ReadFault → IsReadFault fault }
{
    match fault {
        LoadFault::At { cause, file } => on_cause(alloc, name_of(names, file as usize), cause),
        LoadFault::Memory => Err(Stop::Memory),
    }
}

/// The report of a file that was refused.
pub fn on_cause(alloc: Global, file: &str, cause: LoadCause) -> Result<Report, Stop>
    ensures told { IfOk result (λ r. r ≡ spec.of_cause file.now cause) }
    ensures refusal { IfOk result (λ _. IsRefusedFor cause) }
    ensures read_fault { IsErrOf result Stop.ReadFault → cause ≡ ReadFault }
{
    match cause {
        LoadCause::Missing => or_stop(refused_file(alloc, file, "Missing")),
        LoadCause::TooLong => or_stop(refused_file(alloc, file, "TooLong")),
        LoadCause::ReadFault => Err(Stop::ReadFault),
        LoadCause::Spelling { cause, place } => {
            or_stop(refused_text(alloc, file, place, spelling_name(cause)))
        }
    }
}

/// The name of the file of that number: the library stands behind the files that are named.
pub fn name_of(names: &[String], file: usize) -> &str
    ensures { result.now ≡ spec.name_of (map string_bytes names.now) file }
{
    match names.get(file) {
        Some(name) => name.as_str(),
        None => "lib:Collections",
    }
}

/// The report of what is done with a program.
fn on_program(
    alloc: Global,
    task: Task<'_>,
    names: &[String],
    program: Program,
) -> Result<Report, NoMemory>
    requires whole { IsWhole program }
    requires range { RunsInRange (task_of task) }
    ensures { IfOk result (λ r. r ≡ spec.of_units (task_of task.entry) (map string_bytes names.now) program.files (map unit_of program.units) program.marks) }
{
    match task {
        Task::Check { all, sends } => on_checks(alloc, all, sends, names, program),
        Task::Show => on_show(alloc, program.units.as_slice()),
        Task::Build { image } => on_build(alloc, names, image, program),
        Task::Act {
            limits,
            count,
            sel,
            number,
        } => on_acts(alloc, names, limits, count, sel, number, program),
        Task::Test {
            limits,
            reversed,
            only,
        } => on_tests(alloc, names, limits, reversed, only, program),
        Task::Snap { name, limits, at } => on_snap(alloc, names, name, limits, at, program),
        Task::Replay { limits, moves } => on_replay(alloc, names, limits, moves, program),
    }
}

/// The report of a program with that fault at that place.
pub fn on_static_fault(
    alloc: Global,
    names: &[String],
    place: Place,
    cause: StaticCause,
) -> Result<Report, NoMemory>
    ensures { IfOk result (λ r. r ≡ spec.of_check (map string_bytes names.now) (Some (record { place = place; cause = cause }))) }
{
    let file = name_of(names, place.file as usize);
    refused_text(alloc, file, place, static_name(cause))
}

/// The report that tells the canonical source of the first unit.
fn on_show(alloc: Global, units: &[Unit]) -> Result<Report, NoMemory>
    ensures { IfOk result (λ r. r ≡ spec.of_show (map unit_of units.now)) }
{
    match units {
        [] => told_text(alloc, ""),
        [unit, ..] => shown(alloc, unit),
    }
}

/// The report that tells a unit's canonical source.
fn shown(alloc: Global, unit: &Unit) -> Result<Report, NoMemory>
    ensures { IfOk result (λ r. r ≡ told_lem (printed (flat (unit_of unit.now)))) }
{
    let source = print(alloc, unit)?;
    Ok(told(alloc, Text::from_vec(source)))
}
