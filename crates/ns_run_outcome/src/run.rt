//! The report of a run.

ghost use Rattle.std.specs.Prelude.{◌≡◌, ◌++◌, IfOk, option_map, string_bytes};
ghost use Rattle.ns_run_outcome.specs.Run as spec;

use crate::report::Report;
use ns_base::limits::Limits;
use ns_base::no_memory::NoMemory;
use ns_base::status::Status;
use ns_base::text::Text;
use ns_json::saying::{Run, Saying, Trace};
use ns_run_code::run::Ran;
use ns_world::ending::Counters;
use std::alloc::Global;

/// What is told of a run beside what it printed and its report line, and what its status says.
#[derive(Clone, Copy)]
pub struct Telling {
    /// The number of the program's classes, where that and the steps are told behind the output.
    pub classes: Option<u32>,
    /// Whether what was used is told behind the report line.
    pub stats: bool,
    /// Whether the sends that were open at the end are told there too.
    pub trace: bool,
    /// Whether the run is done only where its answer is true.
    pub truth: bool,
    /// Whether it is told in parts.
    pub json: bool,
}

/// The report of a run within these limits, with these lines of its trace behind its own. It may be told in parts too, and then its
/// trace is.
pub fn run_report(
    alloc: Global,
    telling: Telling,
    limits: Limits,
    ran: Ran,
    lines: &[u8],
    trace: Option<Trace>,
    parts: Option<Run>,
) -> Result<Report, NoMemory>
    ensures { IfOk result (λ r. r ≡ spec.run_report telling limits ran lines.now trace parts) }
{
    let Telling {
        classes,
        stats,
        truth,
        ..
    } = telling;
    let Ran {
        output,
        line,
        status,
        counters,
    } = ran;
    let status = status_told(truth, line.bytes(), status);
    let out = with_summary(alloc, classes, counters.steps, output)?;
    let line = with_line(line, lines)?;
    let err = with_stats(alloc, stats, counters, limits, line)?;
    Ok(Report {
        out,
        err,
        status,
        stored: None,
        said: parts_told(telling, limits, trace, parts),
    })
}

/// What is told of a run in parts, where it is.
fn parts_told(
    telling: Telling,
    limits: Limits,
    trace: Option<Trace>,
    parts: Option<Run>,
) -> Option<Saying>
    ensures { result ≡ option_map (spec.parts_told telling limits trace) parts }
{
    match parts {
        None => None,
        Some(run) => Some(Saying::Ran {
            run: Run {
                limits: limits_told(telling.stats, limits),
                trace,
                ..run
            },
        }),
    }
}

/// The limits of a run, where it is asked what was used of them.
fn limits_told(asked: bool, limits: Limits) -> Option<Limits>
    ensures { result ≡ spec.limits_told asked limits }
{
    if asked { Some(limits) } else { None }
}

/// What a run printed, and behind it the line on classes and steps where these are counted.
fn with_summary(
    alloc: Global,
    classes: Option<u32>,
    steps: u64,
    output: Text,
) -> Result<Text, NoMemory>
    ensures { IfOk result (λ text. text ≡ spec.with_summary classes steps output) }
{
    match classes {
        None => Ok(output),
        Some(classes) => {
            let told = summary(alloc, classes, steps)?;
            with_line(output, told.as_bytes())
        }
    }
}

/// The line that tells of a run how many classes its program has and how many steps it used.
fn summary(alloc: Global, classes: u32, steps: u64) -> Result<String, NoMemory>
    ensures { IfOk result (λ text. string_bytes text ≡ spec.summary classes steps) }
{
    Ok(format!(in alloc; "classes {classes} steps {steps}\n")?)
}

/// The report line of a run with what is told behind it, and then the line on what was used where that is asked for.
fn with_stats(
    alloc: Global,
    asked: bool,
    used: Counters,
    limits: Limits,
    line: Text,
) -> Result<Text, NoMemory>
    ensures { IfOk result (λ text. text ≡ spec.with_stats asked used limits line) }
{
    if !asked {
        return Ok(line);
    }
    let told = stats(alloc, used, limits)?;
    with_line(line, told.as_bytes())
}

/// A text with a line behind it.
fn with_line(text: Text, line: &[u8]) -> Result<Text, NoMemory>
    ensures { IfOk result (λ made. made ≡ text ++ line.now) }
{
    let mut bytes = text.into_vec()?;
    bytes.extend_from_slice(line)?;
    Ok(Text::from_vec(bytes))
}

/// The line that tells what a run used of its limits.
fn stats(alloc: Global, used: Counters, limits: Limits) -> Result<String, NoMemory>
    ensures { IfOk result (λ text. string_bytes text ≡ spec.stats used limits) }
{
    let steps = used_of(alloc, "steps", used.steps, limits.steps)?;
    let cells = used_of(alloc, "cells", used.cells, limits.cells)?;
    let depth = used_of(alloc, "depth", used.depth, limits.depth)?;
    let out = used_of(alloc, "out", used.out, limits.out)?;
    Ok(format!(in alloc; "used{steps}{cells}{depth}{out}\n")?)
}

/// How much was used of what a limit allows.
fn used_of(alloc: Global, name: &str, used: u64, limit: u64) -> Result<String, NoMemory>
    ensures { IfOk result (λ text. string_bytes text ≡ spec.used_of name.now used limit) }
{
    Ok(format!(in alloc; " {name} {used} of {limit}")?)
}

/// The status of a run of that report line which ended with that status. Where the truth is asked for, it is done only if its
/// answer is true.
fn status_told(truth: bool, line: &[u8], status: Status) -> Status
    ensures { result ≡ spec.status_told truth line.now status }
{
    if !truth {
        return status;
    }
    if line == b"=> true\n".as_slice() {
        return status;
    }
    untrue(status)
}

/// The status of a run whose answer isn't true.
fn untrue(status: Status) -> Status
    ensures { result ≡ spec.untrue status }
{
    match status {
        Status::Done => Status::ProgramError,
        Status::ProgramError => Status::ProgramError,
        Status::Refused => Status::Refused,
        Status::Limit => Status::Limit,
        Status::ReadFault => Status::ReadFault,
        Status::WriteFault => Status::WriteFault,
        Status::Memory => Status::Memory,
    }
}
