//! The run of an image, and its report.

ghost use Rattle.std.specs.Prelude.{◌∷◌, [], ◌++◌, ℕ, List, IfOk};
ghost use Rattle.ns_base.specs.Count.{Rose};
ghost use Rattle.ns_base.specs.Limits.{InRange};
ghost use Rattle.ns_run_code.specs.Exec.{image_code as image_code_lem};
ghost use Rattle.ns_run_image.specs.Image as spec;
ghost use Rattle.ns_run_input.specs.Input.{in_parts, run_of};
ghost use Rattle.ns_run_outcome.specs.Outcome.{IsMissing};
ghost use Rattle.ns_run_outcome.specs.Stated.{Reports};

use crate::image::{IMAGE_BYTES, refused_image};
use ns_base::shelf::{Shelf, ShelfFault};
use ns_run_code::exec::{ExecFault, image_code};
use ns_run_input::run::on_code;
use ns_run_input::task::RunTask;
use ns_run_outcome::report::{Report, refused_file, unsound};
use ns_run_outcome::stop::{Stop, or_stop};
use std::alloc::Global;

/// The report of the run of the image of that name, as it is asked for.
pub fn on_exec<S: Shelf>(
    alloc: Global,
    task: RunTask<'_>,
    name: &str,
    shelf: &mut S,
) -> Result<Report, Stop>
    requires { InRange task.limits }
    ensures { Reports S.holds S.misses S.faults S.store_faults shelf.old shelf.new
        ((name.now ∷ []) ++ (run_of task.entry).inputs) (in_parts 1 (spec.of_exec (run_of task.entry) (name.now ∷ []))) result }
{
    match shelf.load(alloc, name, IMAGE_BYTES as u64 + 1) {
        Err(ShelfFault::Missing) => or_stop(refused_file(alloc, name, "Missing")),
        Err(ShelfFault::Failed) => Err(Stop::ReadFault),
        Err(ShelfFault::Memory) => Err(Stop::Memory),
        Ok(bytes) => on_bytes(alloc, task, name, bytes.as_slice(), shelf),
    }
}

/// The report of the run of an image of these bytes.
fn on_bytes<S: Shelf>(
    alloc: Global,
    task: RunTask<'_>,
    name: &str,
    bytes: &[u8],
    shelf: &mut S,
) -> Result<Report, Stop>
    requires { InRange task.limits }
    ensures reports { Reports S.holds S.misses S.faults S.store_faults shelf.old shelf.new
        (run_of task.entry).inputs (spec.of_exec_bytes (run_of task.entry) name.now bytes.now) result }
    ensures missing { IfOk result (λ r. (file : List ℕ) → IsMissing file r → Rose (S.misses shelf.old) (S.misses shelf.new)) }
{
    if IMAGE_BYTES < bytes.len() {
        return or_stop(refused_file(alloc, name, "TooLong"));
    }
    on_image_code(alloc, task, name, bytes, shelf)
}

/// The report of the run of an image of these bytes, which aren't too many.
fn on_image_code<S: Shelf>(
    alloc: Global,
    task: RunTask<'_>,
    name: &str,
    bytes: &[u8],
    shelf: &mut S,
) -> Result<Report, Stop>
    requires { InRange task.limits }
    ensures reports { Reports S.holds S.misses S.faults S.store_faults shelf.old shelf.new
        (run_of task.entry).inputs (spec.of_code (run_of task.entry) name.now (image_code_lem bytes.now)) result }
    ensures missing { IfOk result (λ r. (file : List ℕ) → IsMissing file r → Rose (S.misses shelf.old) (S.misses shelf.new)) }
{
    match image_code(alloc, bytes) {
        Ok(code) => on_code(alloc, task, code, shelf),
        Err(ExecFault::Image(fault)) => or_stop(refused_image(alloc, name, fault)),
        Err(ExecFault::Unsound { cause, at }) => or_stop(unsound(alloc, name, cause, at)),
        Err(ExecFault::Memory) => Err(Stop::Memory),
    }
}
