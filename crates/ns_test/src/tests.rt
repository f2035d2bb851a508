//! The tests of a program, those that are asked for.

ghost use Rattle.std.specs.Prelude.{◌≡◌, All, Bool, count_by, Err, IfOk, IfSome, IsErrOf, List, Option, option_map, Some, ℕ, codes};
ghost use Rattle.ns_base.specs.Limits.{InRange};
ghost use Rattle.ns_code.specs.Selector.{selector_text};
ghost use Rattle.ns_machine.specs.Asking.{HasSelector};
ghost use Rattle.ns_moves.specs.State.{ending_of, world_of};
ghost use Rattle.ns_machine_report.specs.Ending.{IsLiveEnding};
ghost use Rattle.ns_run_code.specs.Running.{HasAnEnd};
ghost use Rattle.ns_world.specs.Lawful.{IsLiveValue};
ghost use Rattle.ns_world.specs.declared.ending.Ending.TheVariants.{Done};
ghost use Rattle.ns_test.specs.Opening.{tests_of};
ghost use Rattle.ns_test.specs.Stated.{AnswersClass, AnswersFault, IsTest, Tells};
ghost use Rattle.ns_test.specs.Tests as spec;
ghost use Rattle.ns_test.specs.declared.report.TestFault.{TestFault as FaultValue};

use crate::alone::{TestResult, test_alone};
use crate::opening;
use crate::report::{TestFault, TestReport, Verdict};
use ns_base::items::Items;
use ns_base::limits::Limits;
use ns_base::no_memory::NoMemory;
use ns_base::selector::Sel;
use ns_base::text::Text;
use ns_code::class::ClassCode;
use ns_code::program::CodeProgram;
use ns_json::saying::Test;
use ns_machine::machine::Machine;
use ns_machine_report::output::put;
use ns_run_code::code::finished;
use ns_run_told::told::told_run;
use ns_verify::verify::Verified;
use ns_world::ending::Ending;
use ns_world::value::Value;
use std::alloc::Global;

/// The tests of some code within these limits, each run alone: all of them in the order of the text, or in the reverse one, or
/// the one of a name. A program of tests answers a declared class whose factory is `new`; its tests are the public methods of
/// that declaration's instance side that take no argument and whose names begin with `test`.
pub fn run_tests(
    alloc: Global,
    code: &Verified,
    limits: Limits,
    reversed: bool,
    only: Option<&[u8]>,
) -> Result<TestReport, TestFault>
    requires { InRange limits }
    ensures { Tells (spec.tests_run code.now limits reversed (option_map (λ name. name.now) only.entry)) result }
{
    match open(alloc, code, limits) {
        Ok(class) => tests_in(alloc, code, limits, class, reversed, only),
        Err(fault) => Err(fault),
    }
}

/// The tests of that class that are asked for, each run alone.
fn tests_in(
    alloc: Global,
    code: &Verified,
    limits: Limits,
    class: &ClassCode,
    reversed: bool,
    only: Option<&[u8]>,
) -> Result<TestReport, TestFault>
    requires range { InRange limits }
    requires new { selector_text code.now class.now.factory.0 ≡ codes "new" }
    ensures { Tells (spec.of_asked code.now limits
        (spec.asked_for code.now reversed (option_map (λ name. name.now) only.entry) (tests_of code.now class.now))) result }
{
    let program = code.code();
    let tests = opening::tests_of(alloc, program, class)?;
    let asked = asked_for(alloc, program, reversed, only, tests)?;
    report_if(alloc, code, limits, asked)
}

/// The class of tests that the opening of some code answers, or why there is none.
fn open(alloc: Global, code: &Verified, limits: Limits) -> Result<&ClassCode, TestFault>
    requires { InRange limits }
    ensures class { IfOk result (λ class. (reversed : Bool) (only : Option (List ℕ)) → spec.tests_run code.now limits reversed only
        ≡ spec.of_asked code.now limits (spec.asked_for code.now reversed only (tests_of code.now class.now))) }
    ensures new { IfOk result (λ class. selector_text code.now class.now.factory.0 ≡ codes "new") }
    ensures fault { (fault : FaultValue) → IsErrOf result fault → (reversed : Bool) (only : Option (List ℕ))
        → Tells (spec.tests_run code.now limits reversed only) (Err fault) }
{
    let machine = opening::opened(alloc, code, limits)?;
    let found = answered(alloc, code, &machine);
    drop(machine);
    found
}

/// The class of tests that an opening which has come to rest answers, or why there is none.
fn answered<'a>(
    alloc: Global,
    code: &'a Verified,
    machine: &Machine,
) -> Result<&'a ClassCode, TestFault>
    requires code { machine.now.code ≡ code.now }
    requires ended { HasAnEnd machine.now.state }
    ensures class { IfOk result (λ class. AnswersClass code.now machine.now.state class.now) }
    ensures new { IfOk result (λ class. selector_text code.now class.now.factory.0 ≡ codes "new") }
    ensures fault { (fault : FaultValue) → IsErrOf result fault → AnswersFault code.now machine.now.state fault }
{
    match machine.ending() {
        Some(ending) => answered_so(alloc, code, machine, ending),
        None => unreachable!(),
    }
}

/// The class of tests that an opening which ended so answers, or why there is none.
fn answered_so<'a>(
    alloc: Global,
    code: &'a Verified,
    machine: &Machine,
    ending: Ending,
) -> Result<&'a ClassCode, TestFault>
    requires code { machine.now.code ≡ code.now }
    requires ends { ending_of machine.now.state ≡ Some ending }
    requires live { IsLiveEnding (world_of machine.now.state).cells machine.now.code ending }
    ensures class { IfOk result (λ class. AnswersClass code.now machine.now.state class.now) }
    ensures new { IfOk result (λ class. selector_text code.now class.now.factory.0 ≡ codes "new") }
    ensures fault { (fault : FaultValue) → IsErrOf result fault → AnswersFault code.now machine.now.state fault }
{
    match ending {
        Ending::Done(value) => class_of_tests(code, machine, value),
        Ending::Error(_) => Err(stopped(alloc, machine)),
        Ending::Limit(_) => Err(stopped(alloc, machine)),
    }
}

/// The value of an opening, where that is a class of tests.
fn class_of_tests<'a>(
    code: &'a Verified,
    machine: &Machine,
    value: Value,
) -> Result<&'a ClassCode, TestFault>
    requires code { machine.now.code ≡ code.now }
    requires ends { ending_of machine.now.state ≡ Some (Done value) }
    requires live { IsLiveValue (world_of machine.now.state).cells machine.now.code value }
    ensures class { IfOk result (λ class. AnswersClass code.now machine.now.state class.now) }
    ensures new { IfOk result (λ class. selector_text code.now class.now.factory.0 ≡ codes "new") }
    ensures fault { (fault : FaultValue) → IsErrOf result fault → AnswersFault code.now machine.now.state fault }
{
    match opening::tests_class(code.code(), machine.world(), value) {
        Some(class) => Ok(class),
        None => Err(TestFault::NotTests),
    }
}

/// What is told of an opening without a value.
fn stopped(alloc: Global, machine: &Machine) -> TestFault
    requires { HasAnEnd machine.now.state }
    ensures { Tells (spec.stopped_at machine.now.code machine.now.state) (Err result) }
{
    match (finished(alloc, machine), told_run(alloc, machine)) {
        (Ok(ran), Ok(part)) => TestFault::Opening {
            line: ran.line,
            status: ran.status,
            part,
        },
        _ => TestFault::Memory,
    }
}

/// Those of these tests that are asked for, if there are any.
fn asked_for(
    alloc: Global,
    code: &CodeProgram,
    reversed: bool,
    only: Option<&[u8]>,
    tests: Vec<Sel>,
) -> Result<Option<Vec<Sel>>, NoMemory>
    ensures { IfOk result (λ asked. option_map (λ sels. sels.items) asked
        ≡ spec.asked_for code.now reversed (option_map (λ name. name.now) only.entry) tests.items) }
{
    match only {
        None => Ok(Some(ordered(reversed, tests))),
        Some(name) => {
            let named = of_name(alloc, code, name, tests.as_slice())?;
            Ok(unless_none(named))
        }
    }
}

/// These tests in their order, or in the reverse one.
fn ordered(reversed: bool, tests: Vec<Sel>) -> Vec<Sel>
    ensures { result.items ≡ spec.ordered reversed tests.items }
{
    let mut tests = tests;
    if reversed {
        tests.reverse();
    }
    tests
}

/// Those of these tests that have that name.
fn of_name(
    alloc: Global,
    code: &CodeProgram,
    name: &[u8],
    tests: &[Sel],
) -> Result<Vec<Sel>, NoMemory>
    ensures { IfOk result (λ named. named.items ≡ spec.of_name code.now name.now tests.now) }
{
    Ok(
        tests
            .iter()
            .copied()
            .filter(|sel| code.selector_text(*sel) == name)
            .collect(alloc)?,
    )
}

/// These tests, unless there are none.
fn unless_none(tests: Vec<Sel>) -> Option<Vec<Sel>>
    ensures { option_map (λ sels. sels.items) result ≡ spec.unless_none tests.items }
{
    if tests.is_empty() {
        return None;
    }
    Some(tests)
}

/// The report of the tests that were asked for, if there are any.
fn report_if(
    alloc: Global,
    code: &Verified,
    limits: Limits,
    asked: Option<Vec<Sel>>,
) -> Result<TestReport, TestFault>
    requires range { InRange limits }
    requires new { HasSelector code.now (codes "new") 0 }
    requires tests { IfSome asked (λ tests. All (IsTest code.now) tests.items) }
    ensures { Tells (spec.of_asked code.now limits (option_map (λ tests. tests.items) asked)) result }
{
    match asked {
        Some(tests) => {
            let report = report_on(alloc, code, limits, tests.as_slice())?;
            Ok(report)
        }
        None => Err(TestFault::NoTest),
    }
}

/// The report of these tests, each run alone.
fn report_on(
    alloc: Global,
    code: &Verified,
    limits: Limits,
    tests: &[Sel],
) -> Result<TestReport, NoMemory>
    requires range { InRange limits }
    requires new { HasSelector code.now (codes "new") 0 }
    requires tests { All (IsTest code.now) tests.now }
    ensures { IfOk result (λ report. report ≡ spec.reported code.now limits tests.now) }
{
    let mut lines = Vec::new(alloc);
    let mut parts = Vec::new(alloc);
    let mut verdicts = Vec::new(alloc);
    'tests: for sel in tests {
        let TestResult {
            verdict,
            line,
            part,
        } = test_alone(alloc, code, limits, *sel)?;
        put(&mut lines, line.bytes())?;
        parts.push(part)?;
        verdicts.push(verdict)?;
    }
    Ok(counted(lines, parts, verdicts.as_slice()))
}

/// The report of tests with these lines and parts, which went so.
fn counted(lines: Vec<u8>, parts: Vec<Test>, verdicts: &[Verdict]) -> TestReport
    ensures { result ≡ spec.counted lines.items parts.items verdicts.now }
{
    TestReport {
        lines: Text::from_vec(lines),
        parts: Items::from_vec(parts),
        tests: verdicts.len(),
        passed: passed(verdicts),
        failed: failed(verdicts),
        errors: errors(verdicts),
    }
}

fn passed(verdicts: &[Verdict]) -> usize
    ensures { result ≡ count_by spec.is_passed verdicts.now }
{
    verdicts
        .iter()
        .filter(|verdict| matches!(**verdict, Verdict::Passed))
        .count()
}

fn failed(verdicts: &[Verdict]) -> usize
    ensures { result ≡ count_by spec.is_failed verdicts.now }
{
    verdicts
        .iter()
        .filter(|verdict| matches!(**verdict, Verdict::Failed))
        .count()
}

fn errors(verdicts: &[Verdict]) -> usize
    ensures { result ≡ count_by spec.is_erred verdicts.now }
{
    verdicts
        .iter()
        .filter(|verdict| matches!(**verdict, Verdict::Erred))
        .count()
}
