//! What a call tells of a program.

ghost use Rattle.std.specs.Prelude.{◌≡◌, drop, false, true, IfOk, IsErrOf};
ghost use Rattle.ns_kdata.specs.Arguments.{CellIsThere, bytes_of};
ghost use Rattle.ns_moves.specs.State.{world_of};
ghost use Rattle.ns_reply.specs.Reply as spec;
ghost use Rattle.ns_snapshot_write.specs.declared.write.WriteFault.TheVariants as fault;

use ns_base::no_memory::NoMemory;
use ns_base::status::Status;
use ns_base::text::Text;
use ns_handed::value::{HostValue, NO_VALUE, value_at};
use ns_kdata::arguments::{text_byte, text_size};
use ns_machine::machine::Machine;
use ns_run_code::code::status_of;
use ns_snapshot_write::write::{WriteFault, write_snapshot};
use ns_world::ending::{Counters, Ending};
use ns_world::value::Value;
use ns_world::world::World;
use std::alloc::Global;

/// Why a call changed nothing.
#[derive(Clone, Copy)]
pub enum Refusal {
    /// The bytes aren't those of a program.
    NotAProgram,
    /// The bytes aren't an image, or its code isn't sound.
    NotAnImage,
    /// A limit is out of its range.
    BadLimits,
    /// A symbol or an object is of another program.
    OtherProgram,
    /// The limit on cells leaves no room for the texts.
    NoRoom,
    /// The program goes on or has ended without a value, a value isn't live, or the program has no such selector of as many arguments.
    MayNotAsk,
    /// The program would have more bytes than a snapshot may have.
    TooLarge,
}

/// What a call tells: how it ended; the program as it stands then, what it printed, the line that reports its end and the bytes of a
/// String or a Symbol; the value with which it ended, and what it has used.
#[derive(Drop)]
pub struct Reply {
    pub status: Status,
    pub program: Text,
    pub printed: Text,
    pub report: Text,
    pub text: Text,
    pub value: HostValue,
    pub used: Counters,
}

/// The most bytes of a program.
const MOST_BYTES: u32 = 134_217_728;

/// Nothing is used.
const NOTHING: Counters = Counters {
    steps: 0,
    cells: 0,
    depth: 0,
    out: 0,
};

/// Why, in a line.
fn refusal_line(why: Refusal) -> &'static [u8]
    ensures { result.now ≡ spec.refusal_line why }
{
    match why {
        Refusal::NotAProgram => b"NotAProgram\n".as_slice(),
        Refusal::NotAnImage => b"NotAnImage\n".as_slice(),
        Refusal::BadLimits => b"BadLimits\n".as_slice(),
        Refusal::OtherProgram => b"OtherProgram\n".as_slice(),
        Refusal::NoRoom => b"limit: cells\n".as_slice(),
        Refusal::MayNotAsk => b"MayNotAsk\n".as_slice(),
        Refusal::TooLarge => b"TooLarge\n".as_slice(),
    }
}

/// It is a limit where the texts of a host pass that on cells, and a refusal else.
fn refusal_status(why: Refusal) -> Status
    ensures { result ≡ spec.refusal_status why }
{
    match why {
        Refusal::NoRoom => Status::Limit,
        Refusal::NotAProgram => Status::Refused,
        Refusal::NotAnImage => Status::Refused,
        Refusal::BadLimits => Status::Refused,
        Refusal::OtherProgram => Status::Refused,
        Refusal::MayNotAsk => Status::Refused,
        Refusal::TooLarge => Status::Refused,
    }
}

/// What is told of a call that changed nothing: why, and no program.
pub fn refused(alloc: Global, why: Refusal) -> Result<Reply, NoMemory>
    ensures { IfOk result (λ reply. reply ≡ spec.refused why) }
{
    let report = Text::of(alloc, refusal_line(why))?;
    Ok(Reply {
        status: refusal_status(why),
        program: Text::from_vec(Vec::new(alloc)),
        printed: Text::from_vec(Vec::new(alloc)),
        report,
        text: Text::from_vec(Vec::new(alloc)),
        value: NO_VALUE,
        used: NOTHING,
    })
}

/// What is told of a program of that name, of whose output so many bytes were told before.
pub fn reply_of(
    alloc: Global,
    name: u64,
    before: usize,
    machine: &Machine,
) -> Result<Reply, NoMemory>
    ensures { IfOk result (λ reply. reply ≡ spec.reply_of name before machine.now) }
{
    match program_of(alloc, machine) {
        Ok(bytes) => told_of(alloc, Text::from_vec(bytes), name, before, machine),
        Err(WriteFault::TooLarge) => refused(alloc, Refusal::TooLarge),
        Err(WriteFault::Memory) => Err(NoMemory),
    }
}

/// The bytes of a program, unless they are too many.
fn program_of(alloc: Global, machine: &Machine) -> Result<Vec<u8>, WriteFault>
    ensures bytes { IfOk result (λ bytes. (bytes.items ≡ spec.program_bytes machine.now) × (spec.is_too_large machine.now ≡ false)) }
    ensures large { IsErrOf result fault.TooLarge → spec.is_too_large machine.now ≡ true }
{
    match machine.freeze(alloc) {
        Ok(frozen) => write_snapshot(alloc, machine.code(), &frozen, MOST_BYTES),
        Err(NoMemory) => Err(WriteFault::Memory),
    }
}

/// The same of one whose bytes are these.
fn told_of(
    alloc: Global,
    program: Text,
    name: u64,
    before: usize,
    machine: &Machine,
) -> Result<Reply, NoMemory>
    ensures { IfOk result (λ reply. reply ≡ spec.told_of program name before machine.now) }
{
    let printed = Text::of(alloc, behind(machine.output(), before))?;
    let report = report_at(alloc, machine)?;
    let text = text_at(alloc, machine)?;
    let ending = machine.ending();
    Ok(Reply {
        status: status_at(ending),
        program,
        printed,
        report,
        text,
        value: value_at(name, ending),
        used: machine.counters(),
    })
}

/// The bytes behind so many.
fn behind(bytes: &[u8], count: usize) -> &[u8]
    ensures { result.now ≡ drop count bytes.now }
{
    bytes.split_at(bytes.len().min(count)).1
}

/// The status of a run: one that goes on has done what it was asked to.
fn status_at(ending: Option<Ending>) -> Status
    ensures { result ≡ spec.status_at ending }
{
    match ending {
        Some(ending) => status_of(ending),
        None => Status::Done,
    }
}

/// The line that reports the end of a run, where it has ended.
fn report_at(alloc: Global, machine: &Machine) -> Result<Text, NoMemory>
    ensures { IfOk result (λ line. line ≡ spec.report_of machine.now) }
{
    match machine.ending() {
        Some(ending) => {
            let line = machine.report(alloc, &ending, machine.code().files.as_slice())?;
            Ok(Text::from_vec(line))
        }
        None => Ok(Text::from_vec(Vec::new(alloc))),
    }
}

/// The bytes of the String or of the name of the Symbol with which a run has ended.
fn text_at(alloc: Global, machine: &Machine) -> Result<Text, NoMemory>
    ensures { IfOk result (λ text. text ≡ spec.text_of machine.now) }
{
    match machine.ending() {
        Some(Ending::Done(value)) => bytes_told(alloc, machine, value),
        Some(Ending::Error(_)) => Ok(Text::from_vec(Vec::new(alloc))),
        Some(Ending::Limit(_)) => Ok(Text::from_vec(Vec::new(alloc))),
        None => Ok(Text::from_vec(Vec::new(alloc))),
    }
}

/// The bytes of a String, or of the name of a Symbol.
fn bytes_told(alloc: Global, machine: &Machine, value: Value) -> Result<Text, NoMemory>
    requires { CellIsThere (world_of machine.now.state).cells value }
    ensures { IfOk result (λ text. text ≡ spec.bytes_told (world_of machine.now.state).cells machine.now.code value) }
{
    match value {
        Value::Sym(sel) => Ok(Text::of(alloc, machine.code().selector_text(sel))?),
        value => bytes_copied(alloc, machine.world(), value),
    }
}

/// The bytes of a String.
fn bytes_copied(alloc: Global, world: &World, text: Value) -> Result<Text, NoMemory>
    requires { CellIsThere world.now.world.cells text }
    ensures { IfOk result (λ bytes. bytes ≡ bytes_of world.now.world.cells text) }
{
    let mut bytes = Vec::new(alloc);
    'bytes: for place in 0..text_size(world, text) {
        bytes.push(text_byte(world, text, place))?;
    }
    Ok(Text::from_vec(bytes))
}
