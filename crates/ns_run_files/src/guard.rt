//! An image that is stored only where no other file stands.

ghost use Rattle.std.specs.Prelude.{◌≡◌, ◌∷◌, map, IfOk, string_bytes, true};
ghost use Rattle.std.specs.Option.{is_some};
ghost use Rattle.ns_run_files.specs.Guard as spec;
ghost use Rattle.ns_run_files.specs.Guard.{Guards};
ghost use Rattle.ns_run_outcome.specs.Stated.{Reports};
ghost use Rattle.ns_run_words.specs.Forms.{AreFiles};

use crate::files::on_named;
use crate::task::Task;
use ns_base::no_memory::NoMemory;
use ns_base::shelf::{Shelf, ShelfFault};
use ns_run_outcome::report::{Report, refused_file};
use ns_run_outcome::stop::{Stop, or_stop};
use std::alloc::Global;

/// The report of the image of the program of files of these names, which is stored under that name where no other file stands.
pub fn on_build_to<S: Shelf>(
    alloc: Global,
    lib: bool,
    image: &str,
    names: &[String],
    shelf: &mut S,
) -> Result<Report, Stop>
    requires { AreFiles (map string_bytes names.now) }
    ensures { Reports S.holds S.misses S.faults S.store_faults shelf.old shelf.new
        (image.now ∷ map string_bytes names.now) (spec.of_built_to lib image.now (map string_bytes names.now)) result }
{
    match on_named(alloc, Task::Build { image }, lib, names, shelf) {
        Ok(report) => guarded(alloc, image, report, shelf),
        Err(stop) => Err(stop),
    }
}

/// That report; but where it stores, and the file of that name is there and is no image, the refusal to store over it.
fn guarded<S: Shelf>(
    alloc: Global,
    name: &str,
    report: Report,
    shelf: &mut S,
) -> Result<Report, Stop>
    ensures { Guards S.holds S.misses S.faults S.store_faults shelf.old shelf.new name.now report result }
{
    if report.stored.is_some() {
        over_file(alloc, name, report, shelf)
    } else {
        Ok(report)
    }
}

/// A report that stores, where the file of that name gives way.
fn over_file<S: Shelf>(
    alloc: Global,
    name: &str,
    report: Report,
    shelf: &mut S,
) -> Result<Report, Stop>
    requires { is_some report.stored ≡ true }
    ensures { Guards S.holds S.misses S.faults S.store_faults shelf.old shelf.new name.now report result }
{
    match shelf.load(alloc, name, 4) {
        Err(ShelfFault::Missing) => Ok(report),
        Err(ShelfFault::Failed) => Err(Stop::ReadFault),
        Err(ShelfFault::Memory) => Err(Stop::Memory),
        Ok(front) => or_stop(over_front(alloc, name, front.as_slice(), report)),
    }
}

/// That report, where a file that begins with these bytes is an image; or the refusal to store over it.
fn over_front(alloc: Global, name: &str, front: &[u8], report: Report) -> Result<Report, NoMemory>
    ensures { IfOk result (λ r. r ≡ spec.of_front name.now front.now report) }
{
    if front == b"NSPK".as_slice() {
        return Ok(report);
    }
    refused_file(alloc, name, "Exists")
}
