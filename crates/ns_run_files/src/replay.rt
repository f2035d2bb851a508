//! The moves through a program's run, and their report.

ghost use Rattle.std.specs.Prelude.{◌≡◌, map, IfOk, string_bytes};
ghost use Rattle.ns_base.specs.Limits.{InRange};
ghost use Rattle.ns_resolved.specs.Classes.{meant};
ghost use Rattle.ns_run_files.specs.Programs as spec;
ghost use Rattle.ns_run_replay.specs.Replayed.{replayed_of};
ghost use Rattle.ns_run_words.specs.Words.{move_of};
ghost use Rattle.ns_scope.specs.Whole.{IsWhole};
ghost use Rattle.ns_static.specs.Check.{fault_of};
ghost use Rattle.ns_tree.specs.PlainOf.{unit_of};

use crate::files::on_static_fault;
use ns_base::limits::Limits;
use ns_base::no_memory::NoMemory;
use ns_base::text::Text;
use ns_link::fault::LinkFault;
use ns_run_outcome::cause::size_name;
use ns_run_outcome::report::{Report, refused_size, told};
use ns_run_replay::replay::replay;
use ns_scope::program::Program;
use ns_static::check::{Checked, check};
use ns_static::fault::StaticFault;
use std::alloc::Global;

/// The report of a program whose run is gone through by moves.
pub fn on_replay(
    alloc: Global,
    names: &[String],
    limits: Limits,
    moves: &[String],
    program: Program,
) -> Result<Report, NoMemory>
    requires whole { IsWhole program }
    requires range { InRange limits }
    ensures { IfOk result (λ r. r ≡ spec.of_replay (map string_bytes names.now) limits (map move_of (map string_bytes moves.now))
        program.files (map unit_of program.units) program.marks (fault_of program)) }
{
    match check(alloc, program) {
        Ok(checked) => replayed(alloc, limits, moves, &checked),
        Err(StaticFault::At { cause, place }) => on_static_fault(alloc, names, place, cause),
        Err(StaticFault::Memory) => Err(NoMemory),
    }
}

/// The report of such a program without static faults.
fn replayed(
    alloc: Global,
    limits: Limits,
    moves: &[String],
    checked: &Checked,
) -> Result<Report, NoMemory>
    requires { InRange limits }
    ensures { IfOk result (λ r. r ≡ spec.of_replayed (replayed_of (meant checked.now) limits (map move_of (map string_bytes moves.now)))) }
{
    match replay(alloc, checked, limits, moves) {
        Ok(lines) => Ok(told(alloc, Text::from_vec(lines))),
        Err(LinkFault::TooLarge(kind)) => refused_size(alloc, size_name(kind)),
        Err(LinkFault::Memory) => Err(NoMemory),
    }
}
