//! What the command `test` writes of a report, and its status.

ghost use Rattle.std.specs.Prelude.{◌≡◌, IfOk, string_bytes};
ghost use Rattle.ns_test.specs.Written as spec;

use crate::report::TestReport;
use ns_base::no_memory::NoMemory;
use ns_base::status::Status;
use ns_base::text::Text;
use std::alloc::Global;

/// The lines of the tests, and the one that counts them.
pub fn written(alloc: Global, report: &TestReport) -> Result<Text, NoMemory>
    ensures { IfOk result (λ text. text ≡ spec.written report.now) }
{
    let counts = count_line(alloc, report)?;
    let mut all = Vec::new(alloc);
    all.extend_from_slice(report.lines.bytes())?;
    all.extend_from_slice(counts.as_bytes())?;
    Ok(Text::from_vec(all))
}

/// The line that counts the tests.
fn count_line(alloc: Global, report: &TestReport) -> Result<String, NoMemory>
    ensures { IfOk result (λ line. string_bytes line ≡ spec.count_line report.now) }
{
    let tests = report.tests;
    let passed = report.passed;
    let failed = report.failed;
    let errors = report.errors;
    Ok(format!(in alloc; "tests {tests} passed {passed} failed {failed} errors {errors}\n")?)
}

/// Done where no test failed or is in error, and else an error of the program.
pub fn report_status(report: &TestReport) -> Status
    ensures { result ≡ spec.report_status report.now }
{
    if report.failed == 0 && report.errors == 0 {
        Status::Done
    } else {
        Status::ProgramError
    }
}
