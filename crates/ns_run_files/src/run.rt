//! The run of a program, and its report.

ghost use Rattle.std.specs.Prelude.{◌≡◌, ◌≤◌, ◌++◌, map, ℕ, List, All, IfOk, length, string_bytes};
ghost use Rattle.ns_base.specs.Count.{Rose};
ghost use Rattle.ns_base.specs.Limits.{InRange};
ghost use Rattle.ns_resolved.specs.Classes.{meant};
ghost use Rattle.ns_run_files.specs.Programs as spec;
ghost use Rattle.ns_run_input.specs.Input.{in_parts, run_of};
ghost use Rattle.ns_run_outcome.specs.Outcome.{IsMissing};
ghost use Rattle.ns_run_outcome.specs.Stated.{Reports};
ghost use Rattle.ns_run_words.specs.Forms.{AreFiles};
ghost use Rattle.ns_scope.specs.Whole.{IsWhole, NamesFile};
ghost use Rattle.ns_static.specs.Check.{fault_of};
ghost use Rattle.ns_tree.specs.PlainOf.{unit_of};

use crate::files::{on_fault, on_static_fault};
use ns_base::no_memory::NoMemory;
use ns_base::shelf::Shelf;
use ns_base::text::Text;
use ns_load::load::load;
use ns_load::names::names_of;
use ns_run_code::run::{RunFault, source_code};
use ns_run_input::run::on_code;
use ns_run_input::task::RunTask;
use ns_run_outcome::cause::size_name;
use ns_run_outcome::report::{Report, refused_size};
use ns_run_outcome::stop::{Stop, or_stop};
use ns_scope::program::Program;
use ns_static::check::{Checked, check};
use ns_static::fault::StaticFault;
use std::alloc::Global;

/// The report of the run of the program of files of these names, as it is asked for.
pub fn on_run_files<S: Shelf>(
    alloc: Global,
    task: RunTask<'_>,
    lib: bool,
    names: &[String],
    shelf: &mut S,
) -> Result<Report, Stop>
    requires files { AreFiles (map string_bytes names.now) }
    requires range { InRange task.limits }
    ensures { Reports S.holds S.misses S.faults S.store_faults shelf.old shelf.new
        (map string_bytes names.now ++ (run_of task.entry).inputs)
        (in_parts (length (map string_bytes names.now)) (spec.run_of_texts (run_of task.entry) (map string_bytes names.now) lib)) result }
{
    match names_of(alloc, names) {
        Ok(texts) => on_texts(alloc, task, lib, names, texts.as_slice(), shelf),
        Err(NoMemory) => Err(Stop::Memory),
    }
}

/// The report of the run of the program of files of these names, which are texts too.
fn on_texts<S: Shelf>(
    alloc: Global,
    task: RunTask<'_>,
    lib: bool,
    names: &[String],
    texts: &[Text],
    shelf: &mut S,
) -> Result<Report, Stop>
    requires some { 1 ≤ length texts.now }
    requires few { length texts.now ≤ 16 }
    requires named { All NamesFile texts.now }
    requires same { texts.now ≡ map string_bytes names.now }
    requires range { InRange task.limits }
    ensures { Reports S.holds S.misses S.faults S.store_faults shelf.old shelf.new
        (texts.now ++ (run_of task.entry).inputs)
        (in_parts (length texts.now) (spec.run_of_texts (run_of task.entry) texts.now lib)) result }
{
    match load(alloc, shelf, texts, lib) {
        Ok(program) => on_run(alloc, names, task, program, shelf),
        Err(fault) => on_fault(alloc, names, fault),
    }
}

/// The report of the run of a program.
pub fn on_run<S: Shelf>(
    alloc: Global,
    names: &[String],
    task: RunTask<'_>,
    program: Program,
    shelf: &mut S,
) -> Result<Report, Stop>
    requires whole { IsWhole program }
    requires range { InRange task.limits }
    ensures reports { Reports S.holds S.misses S.faults S.store_faults shelf.old shelf.new (run_of task.entry).inputs
        (spec.of_run (map string_bytes names.now) (run_of task.entry) program.files (map unit_of program.units) program.marks (fault_of program)) result }
    ensures missing { IfOk result (λ r. (name : List ℕ) → IsMissing name r → Rose (S.misses shelf.old) (S.misses shelf.new)) }
{
    match check(alloc, program) {
        Ok(checked) => run(alloc, task, checked, shelf),
        Err(StaticFault::At { cause, place }) => {
            or_stop(on_static_fault(alloc, names, place, cause))
        }
        Err(StaticFault::Memory) => Err(Stop::Memory),
    }
}

/// The report of the run of a program without static faults.
fn run<S: Shelf>(
    alloc: Global,
    task: RunTask<'_>,
    checked: Checked,
    shelf: &mut S,
) -> Result<Report, Stop>
    requires { InRange task.limits }
    ensures reports { Reports S.holds S.misses S.faults S.store_faults shelf.old shelf.new
        (run_of task.entry).inputs (spec.of_meant (run_of task.entry) (meant checked)) result }
    ensures missing { IfOk result (λ r. (name : List ℕ) → IsMissing name r → Rose (S.misses shelf.old) (S.misses shelf.new)) }
{
    match source_code(alloc, checked) {
        Ok(code) => on_code(alloc, task, code, shelf),
        Err(RunFault::TooLarge(kind)) => or_stop(refused_size(alloc, size_name(kind))),
        Err(RunFault::Memory) => Err(Stop::Memory),
    }
}
