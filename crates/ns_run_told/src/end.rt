//! How a run ended, in parts.

ghost use Rattle.std.specs.Prelude.{◌≡◌, ◌≤◌, [], IfOk, Some, length};
ghost use Rattle.std.specs.List.{slice_index_or};
ghost use Rattle.ns_machine_report.specs.Ending.{IsLiveEnding};
ghost use Rattle.ns_moves.specs.State.{world_of};
ghost use Rattle.ns_run_told.specs.Told as spec;
ghost use Rattle.ns_world.specs.Heap.{Heap};
ghost use Rattle.ns_world.specs.declared.ending.Ending.TheVariants as ending;

use crate::names::{kind_name, limit_name};
use ns_base::no_memory::NoMemory;
use ns_base::place::Place;
use ns_base::text::Text;
use ns_code::program::CodeProgram;
use ns_json::saying::{End, FilePlace, Site};
use ns_machine::machine::Machine;
use ns_machine_report::output::put_class;
use ns_world::ending::{Ending, LimitKind, RunError};
use ns_world::value::Value;
use std::alloc::Global;

/// The ending of a machine's run in parts: the text of its value, its kind with its send, or its limit.
pub fn told_end(alloc: Global, machine: &Machine, ending: Ending) -> Result<End, NoMemory>
    requires { IsLiveEnding (world_of machine.now.state).cells machine.now.code ending }
    ensures { IfOk result (λ end. end ≡ spec.told_end (world_of machine.now.state).cells machine.now.code machine.now.code.files ending) }
{
    match ending {
        Ending::Done(value) => answered(alloc, machine, value),
        Ending::Error(error) => failed(alloc, machine.code(), error),
        Ending::Limit(limit) => limited(alloc, limit),
    }
}

/// The end of a run that answered that value, whose text stands in its report line.
#[tactic(auto, using(crate::proofs::Lines::text_of_line))]
fn answered(alloc: Global, machine: &Machine, value: Value) -> Result<End, NoMemory>
    requires { IsLiveEnding (world_of machine.now.state).cells machine.now.code (ending.Done value) }
    ensures { IfOk result (λ end. end ≡ spec.told_end (world_of machine.now.state).cells machine.now.code machine.now.code.files (ending.Done value)) }
{
    let line = machine.report(alloc, &Ending::Done(value), machine.code().files.as_slice())?;
    let answer = text_in(alloc, line.as_slice())?;
    Ok(End::Done { answer })
}

/// The text of a value in its report line.
fn text_in(alloc: Global, line: &[u8]) -> Result<Text, NoMemory>
    requires { 4 ≤ length line.now }
    ensures { IfOk result (λ text. text ≡ spec.text_in line.now) }
{
    let (_, rest) = line.split_at(3);
    let (text, _) = rest.split_at(rest.len() - 1);
    Text::of(alloc, text)
}

/// The end of a run in an error.
fn failed(alloc: Global, code: &CodeProgram, error: RunError) -> Result<End, NoMemory>
    ensures { (heap : Heap) → IfOk result (λ end. end ≡ spec.told_end heap code.now code.now.files (ending.Error error)) }
{
    let kind = Text::of(alloc, kind_name(error.kind).as_bytes())?;
    let site = told_site(alloc, code, error)?;
    Ok(End::Error { kind, site })
}

/// The send of an error.
fn told_site(alloc: Global, code: &CodeProgram, error: RunError) -> Result<Site, NoMemory>
    ensures { IfOk result (λ site. site ≡ spec.told_site code.now code.now.files error) }
{
    let mut class = Vec::new(alloc);
    put_class(&mut class, code, error.class)?;
    let selector = Text::of(alloc, code.selector_text(error.sel))?;
    let place = told_place(alloc, code.files.as_slice(), error.place)?;
    Ok(Site {
        class: Text::from_vec(class),
        selector,
        place,
    })
}

/// A place by the name of its file.
pub fn told_place(
    alloc: Global,
    files: &[Text],
    place: Option<Place>,
) -> Result<Option<FilePlace>, NoMemory>
    ensures { IfOk result (λ told. told ≡ spec.told_place files.now place) }
{
    match place {
        None => Ok(None),
        Some(place) => named_place(alloc, files, place),
    }
}

fn named_place(alloc: Global, files: &[Text], place: Place) -> Result<Option<FilePlace>, NoMemory>
    ensures { IfOk result (λ told. told ≡ spec.told_place files.now (Some place)) }
{
    let Place { line, col, .. } = place;
    let file = Text::of(alloc, file_name(files, place.file))?;
    Ok(Some(FilePlace { file, line, col }))
}

/// The name of a file, empty where there is none of that number.
fn file_name(files: &[Text], number: u32) -> &[u8]
    ensures { result.now ≡ slice_index_or files.now number [] }
{
    match files.get(number as usize) {
        Some(name) => name.bytes(),
        None => b"".as_slice(),
    }
}

/// The end of a run at a limit.
fn limited(alloc: Global, limit: LimitKind) -> Result<End, NoMemory>
    ensures { IfOk result (λ end. end ≡ spec.limit_end limit) }
{
    let limit = Text::of(alloc, limit_name(limit).as_bytes())?;
    Ok(End::Limit { limit })
}
