//! The tests of a program, and their report.

ghost use Rattle.std.specs.Prelude.{◌≡◌, IfOk, List, map, option_map, string_bytes, ℕ};
ghost use Rattle.ns_base.specs.Limits.{InRange};
ghost use Rattle.ns_resolved.specs.Classes.{meant};
ghost use Rattle.ns_run_files.specs.Programs as spec;
ghost use Rattle.ns_run_files.specs.Tests.{tests_report, tests_told as told_lem};
ghost use Rattle.ns_scope.specs.Whole.{IsWhole};
ghost use Rattle.ns_static.specs.Check.{fault_of};
ghost use Rattle.ns_test.specs.Source.{source_tested};
ghost use Rattle.ns_test.specs.Tests.{has_not_opened, has_tested};
ghost use Rattle.ns_tree.specs.PlainOf.{unit_of};

use crate::files::{name_of, on_static_fault};
use ns_base::limits::Limits;
use ns_base::no_memory::NoMemory;
use ns_base::status::Status;
use ns_base::text::Text;
use ns_json::saying::{Run, Saying, Tests};
use ns_run_outcome::cause::size_name;
use ns_run_outcome::report::{Report, refused_file, refused_size};
use ns_scope::program::Program;
use ns_static::check::{Checked, check};
use ns_static::fault::StaticFault;
use ns_test::report::{TestFault, TestReport};
use ns_test::source::test_source;
use ns_test::written::{report_status, written};
use std::alloc::Global;

/// The report of the tests of a program.
pub fn on_tests(
    alloc: Global,
    names: &[String],
    limits: Limits,
    reversed: bool,
    only: Option<&[u8]>,
    program: Program,
) -> Result<Report, NoMemory>
    requires whole { IsWhole program }
    requires range { InRange limits }
    ensures { IfOk result (λ r. r ≡ spec.of_tests (map string_bytes names.now) limits reversed (option_map (λ name. name.now) only.entry)
        program.files (map unit_of program.units) program.marks (fault_of program)) }
{
    match check(alloc, program) {
        Ok(checked) => tested(alloc, name_of(names, 0), limits, reversed, only, &checked),
        Err(StaticFault::At { cause, place }) => on_static_fault(alloc, names, place, cause),
        Err(StaticFault::Memory) => Err(NoMemory),
    }
}

/// The report of the tests of a program without static faults, of which this is the first file.
fn tested(
    alloc: Global,
    file: &str,
    limits: Limits,
    reversed: bool,
    only: Option<&[u8]>,
    checked: &Checked,
) -> Result<Report, NoMemory>
    requires { InRange limits }
    ensures { IfOk result (λ r. r ≡ tests_report file.now
        (source_tested (meant checked.now) limits reversed (option_map (λ name. name.now) only.entry))) }
{
    match test_source(alloc, checked, limits, reversed, only) {
        Ok(tests) => counted(alloc, tests),
        Err(TestFault::TooLarge(kind)) => refused_size(alloc, size_name(kind)),
        Err(TestFault::Opening { line, status, part }) => Ok(opened_alone(
            alloc, line, status, part,
        )),
        Err(TestFault::NotTests) => refused_file(alloc, file, "NotTests"),
        Err(TestFault::NoTest) => refused_file(alloc, file, "NoTest"),
        Err(TestFault::Memory) => Err(NoMemory),
    }
}

/// The report of an opening that ended without a value.
fn opened_alone(alloc: Global, line: Text, status: Status, part: Run) -> Report
    ensures { (file : List ℕ) → result ≡ tests_report file (has_not_opened line status part) }
{
    Report {
        out: Text::from_vec(Vec::new(alloc)),
        err: line,
        status,
        stored: None,
        said: Some(Saying::Ran { run: part }),
    }
}

/// The report of tests: their lines, and behind them the counts.
fn counted(alloc: Global, tests: TestReport) -> Result<Report, NoMemory>
    ensures { (file : List ℕ) → IfOk result (λ r. r ≡ tests_report file (has_tested tests)) }
{
    let status = report_status(&tests);
    let out = written(alloc, &tests)?;
    Ok(Report {
        out,
        err: Text::from_vec(Vec::new(alloc)),
        status,
        stored: None,
        said: Some(Saying::Tested {
            tests: tests_told(tests),
        }),
    })
}

/// A report of tests in parts.
fn tests_told(report: TestReport) -> Tests
    ensures { result ≡ told_lem report }
{
    let TestReport {
        parts,
        passed,
        failed,
        errors,
        ..
    } = report;
    Tests {
        tests: parts,
        passed: passed as u64,
        failed: failed as u64,
        errors: errors as u64,
    }
}
