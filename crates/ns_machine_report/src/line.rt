//! The line that reports how a run ended.

ghost use Rattle.std.specs.Prelude.{◌≡◌, ◌∷◌, ◌++◌, [], codes, IfOk, OnOk};
ghost use Rattle.std.specs.List.{slice_index_or};
ghost use Rattle.ns_world.specs.declared.ending.Ending.TheVariants.{Error};
ghost use Rattle.ns_world.specs.Lawful.{IsLawful, IsLiveValue};
ghost use Rattle.ns_moves.specs.Report as spec;
ghost use Rattle.ns_machine_report.specs.Ending.{IsLiveEnding};

use crate::output::{put, put_class, put_number};
use crate::value::put_value;
use ns_base::no_memory::NoMemory;
use ns_base::place::Place;
use ns_base::text::Text;
use ns_code::program::CodeProgram;
use ns_world::ending::{Ending, Kind, LimitKind, RunError};
use ns_world::value::Value;
use ns_world::world::World;
use std::alloc::Global;

/// The line of an ending, with its line feed: the value, the error with its place in one of the
/// files, or the limit that was reached.
pub fn report_line(
    alloc: Global,
    world: &World,
    code: &CodeProgram,
    files: &[Text],
    ending: Ending,
) -> Result<Text, NoMemory>
    requires lawful { IsLawful world.now.world code.now }
    requires live { IsLiveEnding world.now.world.cells code.now ending }
    ensures { IfOk result (λ line. line ≡ spec.report_line world.now.world.cells code.now files.now ending) }
{
    let mut line = Vec::new(alloc);
    put_ending(&mut line, world, code, files, ending)?;
    Ok(Text::from_vec(line))
}

/// Puts the line of an ending behind the bytes that are there.
fn put_ending(
    out: &mut Vec<u8>,
    world: &World,
    code: &CodeProgram,
    files: &[Text],
    ending: Ending,
) -> Result<(), NoMemory>
    requires lawful { IsLawful world.now.world code.now }
    requires live { IsLiveEnding world.now.world.cells code.now ending }
    ensures { OnOk result (out.new.items ≡ out.old.items ++ spec.report_line world.now.world.cells code.now files.now ending) }
{
    match ending {
        Ending::Done(value) => put_done(out, world, code, value),
        Ending::Error(error) => put_error(out, code, files, error),
        Ending::Limit(limit) => put_limit(out, limit),
    }
}

/// Puts the line of a run that answered.
fn put_done(
    out: &mut Vec<u8>,
    world: &World,
    code: &CodeProgram,
    value: Value,
) -> Result<(), NoMemory>
    requires lawful { IsLawful world.now.world code.now }
    requires live { IsLiveValue world.now.world.cells code.now value }
    ensures { OnOk result (out.new.items ≡ out.old.items ++
        (codes "=> " ++ spec.value_text world.now.world.cells code.now value ++ 10 ∷ [])) }
{
    put(out, b"=> ".as_slice())?;
    put_value(out, world, code, value)?;
    put(out, b"\n".as_slice())
}

/// Puts the line of an error: its place, its kind, and the class and the selector of its send.
fn put_error(
    out: &mut Vec<u8>,
    code: &CodeProgram,
    files: &[Text],
    error: RunError,
) -> Result<(), NoMemory>
    ensures { OnOk result (out.new.items ≡ out.old.items ++ spec.report_line [] code.now files.now (Error error)) }
{
    put_place(out, files, error.place)?;
    put(out, b": ".as_slice())?;
    put(out, kind_text(error.kind))?;
    put(out, b" ".as_slice())?;
    put_class(out, code, error.class)?;
    put(out, b" ".as_slice())?;
    put(out, code.selector_text(error.sel))?;
    put(out, b"\n".as_slice())
}

/// Puts a place: its file, its line and its column.
fn put_place(out: &mut Vec<u8>, files: &[Text], place: Option<Place>) -> Result<(), NoMemory>
    ensures { OnOk result (out.new.items ≡ out.old.items ++ spec.place_text files.now place) }
{
    match place {
        Some(place) => put_source_place(out, files, place),
        None => put(out, b"image".as_slice()),
    }
}

fn put_source_place(out: &mut Vec<u8>, files: &[Text], place: Place) -> Result<(), NoMemory>
    ensures { OnOk result (out.new.items ≡ out.old.items ++ spec.place_text files.now (Some place)) }
{
    put(out, file_name(files, place.file))?;
    put(out, b":".as_slice())?;
    put_number(out, place.line)?;
    put(out, b":".as_slice())?;
    put_number(out, place.col)
}

/// The name of a file, empty where there is none of that number.
fn file_name(files: &[Text], number: u32) -> &[u8]
    ensures { result.now ≡ slice_index_or files.now number [] }
{
    match files.get(number as usize) {
        Some(name) => name.bytes(),
        None => b"".as_slice(),
    }
}

/// Puts the line of a limit.
fn put_limit(out: &mut Vec<u8>, limit: LimitKind) -> Result<(), NoMemory>
    ensures { OnOk result (out.new.items ≡ out.old.items ++ (codes "limit: " ++ spec.limit_text limit ++ 10 ∷ [])) }
{
    put(out, b"limit: ".as_slice())?;
    put(out, limit_text(limit))?;
    put(out, b"\n".as_slice())
}

/// The name of a kind of errors.
fn kind_text(kind: Kind) -> &'static [u8]
    ensures { result.now ≡ spec.kind_text kind }
{
    match kind {
        Kind::NotUnderstood => b"NotUnderstood".as_slice(),
        Kind::NotPublic => b"NotPublic".as_slice(),
        Kind::Overflow => b"Overflow".as_slice(),
        Kind::ZeroDivide => b"ZeroDivide".as_slice(),
        Kind::WrongKind => b"WrongKind".as_slice(),
        Kind::OutOfRange => b"OutOfRange".as_slice(),
        Kind::MustBeBoolean => b"MustBeBoolean".as_slice(),
        Kind::DeadReturn => b"DeadReturn".as_slice(),
        Kind::WrongArity => b"WrongArity".as_slice(),
        Kind::NotAClass => b"NotAClass".as_slice(),
        Kind::KernelSuper => b"KernelSuper".as_slice(),
        Kind::InitMismatch => b"InitMismatch".as_slice(),
        Kind::FixedSlot => b"FixedSlot".as_slice(),
        Kind::ChainLimit => b"ChainLimit".as_slice(),
    }
}

/// The name of a limit.
fn limit_text(limit: LimitKind) -> &'static [u8]
    ensures { result.now ≡ spec.limit_text limit }
{
    match limit {
        LimitKind::Steps => b"steps".as_slice(),
        LimitKind::Cells => b"cells".as_slice(),
        LimitKind::Depth => b"depth".as_slice(),
        LimitKind::Out => b"out".as_slice(),
    }
}
