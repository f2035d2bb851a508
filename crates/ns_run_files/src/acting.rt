//! The actors of a program, and their report.

ghost use Rattle.std.specs.Prelude.{◌≡◌, map, IfOk, string_bytes};
ghost use Rattle.ns_actors_rounds.specs.Source.{has_acted, source_acted};
ghost use Rattle.ns_base.specs.Limits.{InRange};
ghost use Rattle.ns_resolved.specs.Classes.{meant};
ghost use Rattle.ns_run_files.specs.Acts.{acts_report};
ghost use Rattle.ns_run_files.specs.Programs as spec;
ghost use Rattle.ns_run_words.specs.Letter.{MayAct};
ghost use Rattle.ns_scope.specs.Whole.{IsWhole};
ghost use Rattle.ns_static.specs.Check.{fault_of};
ghost use Rattle.ns_tree.specs.PlainOf.{unit_of};

use crate::files::on_static_fault;
use ns_actors_rounds::fault::PlayFault;
use ns_actors_rounds::source::play_source;
use ns_actors_rounds::told::ToldActors;
use ns_base::limits::Limits;
use ns_base::no_memory::NoMemory;
use ns_base::text::Text;
use ns_json::saying::Saying;
use ns_run_outcome::cause::size_name;
use ns_run_outcome::report::{Report, refused_size};
use ns_scope::program::Program;
use ns_static::check::{Checked, check};
use ns_static::fault::StaticFault;
use std::alloc::Global;

/// The report of so many actors of a program, of which the first gets a letter of that selector and number.
pub fn on_acts(
    alloc: Global,
    names: &[String],
    limits: Limits,
    count: u32,
    sel: &[u8],
    number: i64,
    program: Program,
) -> Result<Report, NoMemory>
    requires whole { IsWhole program }
    requires range { InRange limits }
    requires may { MayAct count sel.now }
    ensures { IfOk result (λ r. r ≡ spec.of_acts (map string_bytes names.now) limits count sel.now number
        program.files (map unit_of program.units) program.marks (fault_of program)) }
{
    match check(alloc, program) {
        Ok(checked) => acted(alloc, limits, count, sel, number, &checked),
        Err(StaticFault::At { cause, place }) => on_static_fault(alloc, names, place, cause),
        Err(StaticFault::Memory) => Err(NoMemory),
    }
}

/// The report of so many actors of a program without static faults.
fn acted(
    alloc: Global,
    limits: Limits,
    count: u32,
    sel: &[u8],
    number: i64,
    checked: &Checked,
) -> Result<Report, NoMemory>
    requires range { InRange limits }
    requires may { MayAct count sel.now }
    ensures { IfOk result (λ r. r ≡ acts_report (source_acted (meant checked.now) limits count sel.now number)) }
{
    match play_source(alloc, checked, limits, count, sel, number) {
        Ok(actors) => Ok(told_of(alloc, actors)),
        Err(PlayFault::TooLarge(kind)) => refused_size(alloc, size_name(kind)),
        Err(PlayFault::Memory) => Err(NoMemory),
    }
}

/// The report of actors that have told this.
fn told_of(alloc: Global, actors: ToldActors) -> Report
    ensures { result ≡ acts_report (has_acted actors) }
{
    let ToldActors { told, parts } = actors;
    Report {
        out: told.out,
        err: Text::from_vec(Vec::new(alloc)),
        status: told.status,
        stored: None,
        said: Some(Saying::Acted { actors: parts }),
    }
}
