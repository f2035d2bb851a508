//! The check of a program, as it is asked for, and its report.

ghost use Rattle.std.specs.Prelude.{◌≡◌, flat_map, map, IfOk, Some, string_bytes};
ghost use Rattle.ns_json.specs.declared.saying.Saying.TheVariants.{Faulty};
ghost use Rattle.ns_resolved.specs.Classes.{meant};
ghost use Rattle.ns_run_files.specs.Programs as spec;
ghost use Rattle.ns_run_outcome.specs.Report.{refused, refused_text};
ghost use Rattle.ns_scope.specs.Whole.{IsWhole};
ghost use Rattle.ns_static.specs.Check.{fault_of};
ghost use Rattle.ns_static_all.specs.All.{all_faults as all_faults_lem};
ghost use Rattle.ns_tree.specs.PlainOf.{unit_of};

use crate::files::{name_of, on_static_fault};
use crate::parts::faults_told;
use crate::sends::on_sends;
use ns_base::no_memory::NoMemory;
use ns_base::place::Place;
use ns_base::status::Status;
use ns_base::text::Text;
use ns_json::saying::Saying;
use ns_run_outcome::cause::static_name;
use ns_run_outcome::report::{Report, checked as checked_report};
use ns_scope::program::Program;
use ns_static::check::{Checked, check};
use ns_static::fault::StaticFault;
use ns_static_all::all::all_faults;
use ns_static_rules::fault::Placed;
use std::alloc::Global;

/// The report of the check of a program: of all its faults or of the first, and where it has none, of the sends that nothing
/// answers, or of none.
pub fn on_checks(
    alloc: Global,
    all: bool,
    sends: bool,
    names: &[String],
    program: Program,
) -> Result<Report, NoMemory>
    requires { IsWhole program }
    ensures { IfOk result (λ r. r ≡ spec.of_checks all sends (map string_bytes names.now)
        program.files (map unit_of program.units) program.marks (all_faults_lem program) (fault_of program)) }
{
    if all {
        on_all(alloc, sends, names, program)
    } else {
        on_least(alloc, sends, names, program)
    }
}

/// The report of the check that tells all faults of a program.
fn on_all(
    alloc: Global,
    sends: bool,
    names: &[String],
    program: Program,
) -> Result<Report, NoMemory>
    requires { IsWhole program }
    ensures { IfOk result (λ r. r ≡ spec.of_faults (map string_bytes names.now) (all_faults_lem program)
        (spec.of_least sends (map string_bytes names.now) program.files (map unit_of program.units) program.marks (fault_of program))) }
{
    let faults = all_faults(alloc, &program)?;
    match faults.as_slice() {
        [] => on_least(alloc, sends, names, program),
        [_, ..] => told_faults(alloc, names, faults.as_slice()),
    }
}

/// The report of the check that tells the least fault of a program.
fn on_least(
    alloc: Global,
    sends: bool,
    names: &[String],
    program: Program,
) -> Result<Report, NoMemory>
    requires { IsWhole program }
    ensures { IfOk result (λ r. r ≡ spec.of_least sends (map string_bytes names.now)
        program.files (map unit_of program.units) program.marks (fault_of program)) }
{
    match check(alloc, program) {
        Ok(checked) => on_faultless(alloc, sends, names, &checked),
        Err(StaticFault::At { cause, place }) => on_static_fault(alloc, names, place, cause),
        Err(StaticFault::Memory) => Err(NoMemory),
    }
}

/// The report of the check of a program without static faults.
fn on_faultless(
    alloc: Global,
    sends: bool,
    names: &[String],
    checked: &Checked,
) -> Result<Report, NoMemory>
    ensures { IfOk result (λ r. r ≡ spec.of_faultless sends (map string_bytes names.now) (meant checked.now)) }
{
    if sends {
        on_sends(alloc, names, checked)
    } else {
        checked_report(alloc)
    }
}

/// The report that refuses a program for these faults.
fn told_faults(alloc: Global, names: &[String], faults: &[Placed]) -> Result<Report, NoMemory>
    ensures { IfOk result (λ r. r ≡ refused (Some (Faulty (map (spec.fault_told (map string_bytes names.now)) faults.now)))
        (flat_map (spec.fault_line (map string_bytes names.now)) faults.now)) }
{
    let lines = fault_lines(alloc, names, faults)?;
    let faults = faults_told(alloc, names, faults)?;
    Ok(Report {
        out: Text::from_vec(Vec::new(alloc)),
        err: Text::from_vec(lines),
        status: Status::Refused,
        stored: None,
        said: Some(Saying::Faulty { faults }),
    })
}

/// The lines of faults.
fn fault_lines(alloc: Global, names: &[String], faults: &[Placed]) -> Result<Vec<u8>, NoMemory>
    ensures { IfOk result (λ lines. lines.items ≡ flat_map (spec.fault_line (map string_bytes names.now)) faults.now) }
{
    let mut lines = Vec::new(alloc);
    'faults: for fault in faults {
        let line = fault_line(alloc, names, *fault)?;
        lines.extend_from_slice(line.as_bytes())?;
    }
    Ok(lines)
}

/// The line of a fault.
fn fault_line(alloc: Global, names: &[String], fault: Placed) -> Result<String, NoMemory>
    ensures { IfOk result (λ line. string_bytes line ≡ spec.fault_line (map string_bytes names.now) fault) }
{
    let Placed { place, cause } = fault;
    place_line(
        alloc,
        name_of(names, place.file as usize),
        place,
        static_name(cause),
    )
}

/// The line of a cause at a place of a file.
fn place_line(alloc: Global, file: &str, place: Place, cause: &str) -> Result<String, NoMemory>
    ensures { IfOk result (λ line. string_bytes line ≡ (refused_text file.now place cause.now).err) }
{
    let Place { line, col, .. } = place;
    Ok(format!(in alloc; "{file}:{line}:{col}: {cause}\n")?)
}
