//! The snapshot of a program's run, and its report.

ghost use Rattle.std.specs.Prelude.{◌≡◌, map, IfOk, string_bytes};
ghost use Rattle.ns_base.specs.Limits.{InRange};
ghost use Rattle.ns_resolved.specs.Classes.{meant};
ghost use Rattle.ns_run_files.specs.Programs as spec;
ghost use Rattle.ns_run_snap.specs.Snapped.{snapped_of};
ghost use Rattle.ns_scope.specs.Whole.{IsWhole};
ghost use Rattle.ns_static.specs.Check.{fault_of};
ghost use Rattle.ns_tree.specs.PlainOf.{unit_of};

use crate::files::on_static_fault;
use ns_base::limits::Limits;
use ns_base::no_memory::NoMemory;
use ns_base::text::Text;
use ns_run_outcome::cause::size_name;
use ns_run_outcome::report::{Report, refused_size, stores};
use ns_run_snap::snap::{PauseFault, snap};
use ns_scope::program::Program;
use ns_static::check::{Checked, check};
use ns_static::fault::StaticFault;
use std::alloc::Global;

/// The report of a program whose run is paused after so many steps, and its snapshot stored under that name.
pub fn on_snap(
    alloc: Global,
    names: &[String],
    name: &str,
    limits: Limits,
    at: u64,
    program: Program,
) -> Result<Report, NoMemory>
    requires whole { IsWhole program }
    requires range { InRange limits }
    ensures { IfOk result (λ r. r ≡ spec.of_snap (map string_bytes names.now) name.now limits at
        program.files (map unit_of program.units) program.marks (fault_of program)) }
{
    match check(alloc, program) {
        Ok(checked) => snapped(alloc, name, limits, at, &checked),
        Err(StaticFault::At { cause, place }) => on_static_fault(alloc, names, place, cause),
        Err(StaticFault::Memory) => Err(NoMemory),
    }
}

/// The report of such a program without static faults.
fn snapped(
    alloc: Global,
    name: &str,
    limits: Limits,
    at: u64,
    checked: &Checked,
) -> Result<Report, NoMemory>
    requires { InRange limits }
    ensures { IfOk result (λ r. r ≡ spec.of_snapped name.now (snapped_of (meant checked.now) limits at)) }
{
    match snap(alloc, checked, limits, at) {
        Ok(bytes) => stores(alloc, name, Text::from_vec(bytes)),
        Err(PauseFault::TooLarge(kind)) => refused_size(alloc, size_name(kind)),
        Err(PauseFault::Snapshot) => refused_size(alloc, "TooLarge(Snapshot)"),
        Err(PauseFault::Memory) => Err(NoMemory),
    }
}
