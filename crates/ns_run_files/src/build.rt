//! The image of a program, and its report.

ghost use Rattle.std.specs.Prelude.{◌≡◌, map, IfOk, string_bytes};
ghost use Rattle.ns_run_code.specs.Build.{built_of};
ghost use Rattle.ns_resolved.specs.Classes.{meant};
ghost use Rattle.ns_run_files.specs.Programs as spec;
ghost use Rattle.ns_scope.specs.Whole.{IsWhole};
ghost use Rattle.ns_static.specs.Check.{fault_of};
ghost use Rattle.ns_tree.specs.PlainOf.{unit_of};

use crate::files::on_static_fault;
use ns_base::no_memory::NoMemory;
use ns_base::text::Text;
use ns_run_code::build::{BuildFault, build};
use ns_run_outcome::cause::size_name;
use ns_run_outcome::report::{Report, refused_size, stores};
use ns_scope::program::Program;
use ns_static::check::{Checked, check};
use ns_static::fault::StaticFault;
use std::alloc::Global;

/// The report of a program whose image is stored under that name.
pub fn on_build(
    alloc: Global,
    names: &[String],
    image: &str,
    program: Program,
) -> Result<Report, NoMemory>
    requires { IsWhole program }
    ensures { IfOk result (λ r. r ≡ spec.of_build (map string_bytes names.now) image.now
        program.files (map unit_of program.units) program.marks (fault_of program)) }
{
    match check(alloc, program) {
        Ok(checked) => built(alloc, image, checked),
        Err(StaticFault::At { cause, place }) => on_static_fault(alloc, names, place, cause),
        Err(StaticFault::Memory) => Err(NoMemory),
    }
}

/// The report of a program without static faults whose image is stored under that name.
fn built(alloc: Global, image: &str, checked: Checked) -> Result<Report, NoMemory>
    ensures { IfOk result (λ r. r ≡ spec.of_built image.now (built_of (meant checked))) }
{
    match build(alloc, checked) {
        Ok(bytes) => stores(alloc, image, Text::from_vec(bytes)),
        Err(BuildFault::TooLarge(kind)) => refused_size(alloc, size_name(kind)),
        Err(BuildFault::Image) => refused_size(alloc, "TooLarge(Image)"),
        Err(BuildFault::Memory) => Err(NoMemory),
    }
}
