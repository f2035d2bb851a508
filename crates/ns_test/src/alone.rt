//! One test on its own: a machine of its own, and the line that tells of it.

ghost use Rattle.std.specs.Prelude.{◌≡◌, ◌++◌, [], Some, IfOk, codes};
ghost use Rattle.ns_base.specs.Limits.{InRange};
ghost use Rattle.ns_machine.specs.Asking.{HasSelector, MayAsk, named};
ghost use Rattle.ns_moves.specs.Starts.{begun};
ghost use Rattle.ns_moves.specs.State.{ending_of, world_of};
ghost use Rattle.ns_machine_report.specs.Ending.{IsLiveEnding};
ghost use Rattle.ns_run_code.specs.Machine.{rested};
ghost use Rattle.ns_run_code.specs.Run.{granted};
ghost use Rattle.ns_run_code.specs.Running.{HasAnEnd};
ghost use Rattle.ns_run_told.specs.Told.{told_end as told_end_lem};
ghost use Rattle.ns_json.specs.declared.saying.Outcome.TheVariants as outcomes;
ghost use Rattle.ns_test.specs.Alone as spec;
ghost use Rattle.ns_test.specs.Stated.{IsTest};

use crate::opening::opened;
use crate::report::Verdict;
use ns_base::limits::Limits;
use ns_base::no_memory::NoMemory;
use ns_base::selector::Sel;
use ns_base::text::Text;
use ns_json::saying::{Outcome, Test};
use ns_machine::machine::Machine;
use ns_machine_report::output::put;
use ns_run_code::laws::runs_end_at_rest;
use ns_run_told::end::told_end;
use ns_verify::verify::Verified;
use ns_world::ending::Ending;
use ns_world::value::Value;
use std::alloc::Global;

/// What is told of one test: how it went, its line, and its parts.
#[derive(Drop)]
pub struct TestResult {
    pub verdict: Verdict,
    pub line: Text,
    pub part: Test,
}

/// What is told of the test of a selector, in code with a class whose factory is `new`: its run is one of its own.
pub fn test_alone(
    alloc: Global,
    code: &Verified,
    limits: Limits,
    sel: Sel,
) -> Result<TestResult, NoMemory>
    requires range { InRange limits }
    requires new { HasSelector code.now (codes "new") 0 }
    requires test { IsTest code.now sel }
    ensures { IfOk result (λ told. told ≡ record {
      verdict = spec.test_verdict code.now limits sel;
      line = spec.test_line code.now limits sel;
      part = spec.test_part code.now limits sel;
    }) }
{
    let name = code.code().selector_text(sel);
    let machine = run_alone(alloc, code, limits, name)?;
    let told = result_at(alloc, &machine, name);
    drop(machine);
    told
}

/// A machine in which the test of that name has run alone.
fn run_alone(
    alloc: Global,
    code: &Verified,
    limits: Limits,
    name: &[u8],
) -> Result<Machine, NoMemory>
    requires range { InRange limits }
    requires new { HasSelector code.now (codes "new") 0 }
    requires test { HasSelector code.now name.now 0 }
    ensures machine { IfOk result (λ machine. machine ≡ record {
      code = code.now;
      grants = granted;
      state = spec.run_alone code.now limits name.now;
    }) }
    ensures ended { IfOk result (λ machine. HasAnEnd machine.state) }
{
    let mut machine = opened(alloc, code, limits)?;
    send_on(&mut machine, b"new".as_slice());
    send_on(&mut machine, name);
    Ok(machine)
}

/// Sends a name to the value with which a run has ended, and runs that to its end. A run that has ended otherwise stays as it
/// is.
fn send_on(machine: &mut Machine, name: &[u8])
    requires ended { HasAnEnd machine.old.state }
    requires selector { HasSelector machine.old.code name.now 0 }
    ensures machine { machine.new ≡ record machine.old { state = spec.sent_on machine.old.code name.now machine.old.state } }
    ensures ended { HasAnEnd machine.new.state }
{
    match machine.ending() {
        Some(Ending::Done(value)) => send_to(machine, value, name),
        Some(Ending::Error(_)) => {}
        Some(Ending::Limit(_)) => {}
        None => unreachable!(),
    }
}

/// Sends a name to a value of a run, and runs that to its end.
fn send_to(machine: &mut Machine, value: Value, name: &[u8])
    requires { MayAsk machine.old.code machine.old.state value name.now [] }
    ensures machine { machine.new ≡ record machine.old {
      state = rested machine.old.code (begun value (named machine.old.code name.now) [] machine.old.state);
    } }
    ensures ended { HasAnEnd machine.new.state }
{
    runs_end_at_rest();
    let _valid = machine.idle();
    match machine.may_ask(value, name, &[]) {
        Some(sel) => {
            machine.send(value, sel, &[]);
        }
        None => unreachable!(),
    }
}

/// What is told of a test of that name that has run in this machine.
fn result_at(alloc: Global, machine: &Machine, name: &[u8]) -> Result<TestResult, NoMemory>
    requires { HasAnEnd machine.now.state }
    ensures { IfOk result (λ told. told ≡ record {
      verdict = spec.verdict_at machine.now.state;
      line = spec.line_at machine.now.code name.now machine.now.state;
      part = spec.part_at machine.now.code name.now machine.now.state;
    }) }
{
    match machine.ending() {
        Some(ending) => result_so(alloc, machine, name, ending),
        None => unreachable!(),
    }
}

/// What is told of a test of that name that has run in this machine and ended so.
fn result_so(
    alloc: Global,
    machine: &Machine,
    name: &[u8],
    ending: Ending,
) -> Result<TestResult, NoMemory>
    requires ends { ending_of machine.now.state ≡ Some ending }
    requires live { IsLiveEnding (world_of machine.now.state).cells machine.now.code ending }
    ensures { IfOk result (λ told. told ≡ record {
      verdict = spec.verdict_at machine.now.state;
      line = spec.line_at machine.now.code name.now machine.now.state;
      part = spec.part_at machine.now.code name.now machine.now.state;
    }) }
{
    let verdict = verdict_of(ending);
    let report = machine.report(alloc, &ending, machine.code().files.as_slice())?;
    let line = verdict_line(alloc, verdict, name, report.as_slice())?;
    let outcome = outcome_of(alloc, machine, verdict, ending)?;
    let name = Text::of(alloc, name)?;
    Ok(TestResult {
        verdict,
        line,
        part: Test { name, outcome },
    })
}

/// How a test went in parts, whose run in this machine ended so.
fn outcome_of(
    alloc: Global,
    machine: &Machine,
    verdict: Verdict,
    ending: Ending,
) -> Result<Outcome, NoMemory>
    requires { IsLiveEnding (world_of machine.now.state).cells machine.now.code ending }
    ensures { IfOk result (λ outcome. outcome ≡ spec.outcome_of verdict
        (told_end_lem (world_of machine.now.state).cells machine.now.code machine.now.code.files ending)) }
{
    match verdict {
        Verdict::Passed => Ok(Outcome::Passed),
        Verdict::Failed => Ok(Outcome::Failed),
        Verdict::Erred => erred(alloc, machine, ending),
    }
}

fn erred(alloc: Global, machine: &Machine, ending: Ending) -> Result<Outcome, NoMemory>
    requires { IsLiveEnding (world_of machine.now.state).cells machine.now.code ending }
    ensures { IfOk result (λ outcome. outcome ≡ outcomes.Erred
        (told_end_lem (world_of machine.now.state).cells machine.now.code machine.now.code.files ending)) }
{
    let end = told_end(alloc, machine, ending)?;
    Ok(Outcome::Erred { end })
}

/// How a test went that ended so.
fn verdict_of(ending: Ending) -> Verdict
    ensures { result ≡ spec.verdict_of ending }
{
    match ending {
        Ending::Done(Value::False) => Verdict::Failed,
        Ending::Done(_) => Verdict::Passed,
        Ending::Error(_) => Verdict::Erred,
        Ending::Limit(_) => Verdict::Erred,
    }
}

/// The line of a test of that name, with the report line of its run.
fn verdict_line(
    alloc: Global,
    verdict: Verdict,
    name: &[u8],
    report: &[u8],
) -> Result<Text, NoMemory>
    ensures { IfOk result (λ line. line ≡ spec.verdict_line verdict name.now report.now) }
{
    match verdict {
        Verdict::Passed => joined(
            alloc,
            b"pass ".as_slice(),
            name,
            b"\n".as_slice(),
            b"".as_slice(),
        ),
        Verdict::Failed => joined(
            alloc,
            b"fail ".as_slice(),
            name,
            b"\n".as_slice(),
            b"".as_slice(),
        ),
        Verdict::Erred => joined(alloc, b"error ".as_slice(), name, b" ".as_slice(), report),
    }
}

/// A text of four parts.
fn joined(
    alloc: Global,
    first: &[u8],
    second: &[u8],
    third: &[u8],
    fourth: &[u8],
) -> Result<Text, NoMemory>
    ensures { IfOk result (λ text. text ≡ first.now ++ second.now ++ third.now ++ fourth.now) }
{
    let mut line = Vec::new(alloc);
    put(&mut line, first)?;
    put(&mut line, second)?;
    put(&mut line, third)?;
    put(&mut line, fourth)?;
    Ok(Text::from_vec(line))
}
