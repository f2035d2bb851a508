//! The run of code with its inputs, and its report.

ghost use Rattle.std.specs.Prelude.{◌≡◌, ◌++◌, ◌∷◌, [], ℕ, List, IfOk, IfSome, IsErrOf, MatchResult, Ok, Err, Some, map, option_map, string_bytes};
ghost use Rattle.ns_base.specs.Count.{Rose};
ghost use Rattle.ns_base.specs.Limits.{InRange};
ghost use Rattle.ns_run_input.specs.Input as spec;
ghost use Rattle.ns_run_input.specs.Stated.{ReadsInput};
ghost use Rattle.ns_run_outcome.specs.Outcome.{IsMissing};
ghost use Rattle.ns_run_outcome.specs.Stated.{Reports};
ghost use Rattle.ns_run_told.specs.Told.{code_told};
ghost use Rattle.ns_run_trace.specs.Trace.{code_trace};
ghost use Rattle.ns_run_words.specs.Options.{texts_among};

use crate::task::{Input, RunTask};
use ns_base::limits::Limits;
use ns_base::no_memory::NoMemory;
use ns_base::shelf::{Shelf, ShelfFault};
use ns_base::text::Text;
use ns_json::saying::{Run, Trace};
use ns_load::names::names_of;
use ns_run_code::code;
use ns_run_outcome::report::{Report, refused_file};
use ns_run_outcome::run::{Telling, run_report};
use ns_run_outcome::stop::{Stop, or_stop};
use ns_run_told::told::{ToldRun, run_code};
use ns_run_trace::lines::put_trace;
use ns_run_trace::trace::trace;
use ns_run_words::options::text_in;
use ns_verify::verify::Verified;
use std::alloc::Global;

/// The most bytes of an input.
const INPUT_BYTES: usize = 1_048_576;

/// The report of the run of code as it is asked for. Where it refuses a file as one that isn't there, whatever its name, the count
/// of such files rose.
pub fn on_code<S: Shelf>(
    alloc: Global,
    task: RunTask<'_>,
    code: Verified,
    shelf: &mut S,
) -> Result<Report, Stop>
    requires { InRange task.limits }
    ensures reports { Reports S.holds S.misses S.faults S.store_faults shelf.old shelf.new
        (spec.run_of task.entry).inputs (spec.code_run (spec.run_of task.entry) code) result }
    ensures missing { IfOk result (λ r. (name : List ℕ) → IsMissing name r → Rose (S.misses shelf.old) (S.misses shelf.new)) }
{
    match names_of(alloc, task.arguments) {
        Ok(arguments) => with_inputs(alloc, task, code, task.options, arguments, shelf),
        Err(NoMemory) => Err(Stop::Memory),
    }
}

/// The report of the run of code with these arguments, and behind them the inputs that these options name.
fn with_inputs<S: Shelf>(
    alloc: Global,
    task: RunTask<'_>,
    code: Verified,
    options: &[String],
    arguments: Vec<Text>,
    shelf: &mut S,
) -> Result<Report, Stop>
    requires { InRange task.limits }
    ensures reports { Reports S.holds S.misses S.faults S.store_faults shelf.old shelf.new
        (texts_among (map string_bytes options.now))
        (spec.with_inputs (spec.code_report task.entry.telling task.entry.limits code) arguments.items (texts_among (map string_bytes options.now))) result }
    ensures missing { IfOk result (λ r. (name : List ℕ) → IsMissing name r → Rose (S.misses shelf.old) (S.misses shelf.new)) }
{
    match options {
        [] => or_stop(code_report(alloc, task.telling, task.limits, code, arguments.as_slice())),
        [option, rest @ ..] => match text_in(option.as_str()) {
            None => with_inputs(alloc, task, code, rest, arguments, shelf),
            Some(name) => match input(alloc, name, shelf) {
                Ok(Input::Read(text)) => match with_argument(arguments, text) {
                    Ok(more) => with_inputs(alloc, task, code, rest, more, shelf),
                    Err(NoMemory) => Err(Stop::Memory),
                },
                Ok(Input::Refused(report)) => Ok(report),
                Err(stop) => Err(stop),
            },
        },
    }
}

/// Arguments with one more behind them.
fn with_argument(arguments: Vec<Text>, text: Text) -> Result<Vec<Text>, NoMemory>
    ensures { IfOk result (λ more. more.items ≡ arguments.items ++ text ∷ []) }
{
    let mut more = arguments;
    more.push(text)?;
    Ok(more)
}

/// What is read of the file of that name.
fn input<S: Shelf>(alloc: Global, name: &str, shelf: &mut S) -> Result<Input, Stop>
    ensures { ReadsInput S.holds S.misses S.faults S.store_faults shelf.old shelf.new name.now result }
{
    match shelf.load(alloc, name, INPUT_BYTES as u64 + 1) {
        Err(ShelfFault::Missing) => refused(refused_file(alloc, name, "Missing")),
        Err(ShelfFault::Failed) => Err(Stop::ReadFault),
        Err(ShelfFault::Memory) => Err(Stop::Memory),
        Ok(bytes) => measured(alloc, name, bytes),
    }
}

/// What is read of a file of these bytes, which are one more than fits at most.
fn measured(alloc: Global, name: &str, bytes: Vec<u8>) -> Result<Input, Stop>
    ensures input { IfOk result (λ input. spec.seen input ≡ spec.measured name.now bytes.items) }
    ensures no_read_fault { IsErrOf result Stop.ReadFault → ⊥ }
{
    if INPUT_BYTES < bytes.len() {
        return refused(refused_file(alloc, name, "TooLong"));
    }
    Ok(Input::Read(Text::from_vec(bytes)))
}

/// The refusal of an input.
fn refused(made: Result<Report, NoMemory>) -> Result<Input, Stop>
    ensures { MatchResult made (λ r. result ≡ Ok (Input.Refused r)) (λ _. result ≡ Err Stop.Memory) }
{
    match made {
        Ok(report) => Ok(Input::Refused(report)),
        Err(NoMemory) => Err(Stop::Memory),
    }
}

/// The report of the run of code with these arguments.
fn code_report(
    alloc: Global,
    telling: Telling,
    limits: Limits,
    code: Verified,
    arguments: &[Text],
) -> Result<Report, NoMemory>
    requires { InRange limits }
    ensures { IfOk result (λ r. r ≡ spec.code_report telling limits code arguments.now) }
{
    if telling.json || telling.trace {
        return report_in_parts(alloc, telling, limits, code, arguments);
    }
    let ran = code::run_code(alloc, code, limits, arguments)?;
    run_report(alloc, telling, limits, ran, &[], None, None)
}

/// The report of such a run, of which more is asked than its lines: its parts, or its trace.
fn report_in_parts(
    alloc: Global,
    telling: Telling,
    limits: Limits,
    code: Verified,
    arguments: &[Text],
) -> Result<Report, NoMemory>
    requires { InRange limits }
    ensures { IfOk result (λ r. r ≡ spec.code_report telling limits code arguments.now) }
{
    let again = kept_for(alloc, telling.trace, &code)?;
    let ToldRun { ran, parts } = run_code(alloc, code, limits, arguments)?;
    let trace = traced(alloc, again, limits, arguments, &parts)?;
    let lines = lines_of(alloc, &trace)?;
    run_report(
        alloc,
        telling,
        limits,
        ran,
        lines.as_slice(),
        trace,
        asked(telling.json, parts),
    )
}

/// The lines of a trace, where it is told.
fn lines_of(alloc: Global, trace: &Option<Trace>) -> Result<Vec<u8>, NoMemory>
    ensures { IfOk result (λ lines. lines.items ≡ spec.lines_of trace.now) }
{
    let mut lines = Vec::new(alloc);
    if let Some(trace) = trace {
        put_trace(alloc, &mut lines, trace)?;
    }
    Ok(lines)
}

/// The code once more, where its run is to be traced.
fn kept_for(alloc: Global, traced: bool, code: &Verified) -> Result<Option<Verified>, NoMemory>
    ensures { IfOk result (λ again. again ≡ spec.kept_for traced code.now) }
{
    if !traced {
        return Ok(None);
    }
    let again = code.copy(alloc)?;
    Ok(Some(again))
}

/// The trace of the run of code of which this was told, where there is such code.
fn traced(
    alloc: Global,
    code: Option<Verified>,
    limits: Limits,
    arguments: &[Text],
    told: &Run,
) -> Result<Option<Trace>, NoMemory>
    requires range { InRange limits }
    requires told { IfSome code (λ code. told.now ≡ code_told code limits arguments.now) }
    ensures { IfOk result (λ traced. traced ≡ option_map (λ code. code_trace code limits arguments.now) code) }
{
    match code {
        None => Ok(None),
        Some(code) => {
            let trace = trace(alloc, &code, limits, arguments, told)?;
            Ok(Some(trace))
        }
    }
}

/// What is told of a run in parts, where it is asked for.
fn asked(json: bool, parts: Run) -> Option<Run>
    ensures { result ≡ spec.asked json parts }
{
    if json { Some(parts) } else { None }
}
