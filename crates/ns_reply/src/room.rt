//! A reply into the room of a host.

ghost use Rattle.std.specs.Prelude.{◌≡◌, IfOk};
ghost use Rattle.ns_base.specs.declared.status.Status.TheVariants.{Memory};
ghost use Rattle.ns_reply.specs.Room as spec;

use crate::give::give;
use crate::reply::Reply;
use ns_base::no_memory::NoMemory;
use ns_base::status::Status;
use ns_handed::value::{HostValue, NO_VALUE};
use std::alloc::Global;

/// What a call tells beside its status: how many bytes the room has of each part, in this order; the value with which the run ended;
/// and what it has used.
#[repr(C)]
#[derive(Clone, Copy)]
pub struct Told {
    /// The program as it stands then.
    pub program: u64,
    /// What it printed.
    pub printed: u64,
    /// The line that reports how its run has ended, or why nothing was done.
    pub report: u64,
    /// The bytes of its value, where that is a String or a Symbol.
    pub text: u64,
    pub value: HostValue,
    pub steps: u64,
    pub cells: u64,
    pub depth: u64,
    pub out: u64,
}

/// Where nothing is told.
pub const NOTHING_TOLD: Told = Told {
    program: 0,
    printed: 0,
    report: 0,
    text: 0,
    value: NO_VALUE,
    steps: 0,
    cells: 0,
    depth: 0,
    out: 0,
};

/// Gives a reply into a room, and tells how long its parts are.
pub fn tell(alloc: Global, reply: &Reply, room: &mut [u8], told: &mut Told) -> Status
    ensures { spec.Gives reply.now result room.old room.new told.new }
{
    match parts_of(alloc, reply) {
        Ok(parts) => {
            give(&parts, room);
            *told = told_of(reply);
            reply.status
        }
        Err(NoMemory) => without_memory(told),
    }
}

/// Tells that there was no memory.
pub fn without_memory(told: &mut Told) -> Status
    ensures status { result ≡ Memory }
    ensures told { told.new ≡ spec.nothing_told }
{
    *told = NOTHING_TOLD;
    Status::Memory
}

/// The parts of a reply, one behind the other.
fn parts_of(alloc: Global, reply: &Reply) -> Result<Vec<u8>, NoMemory>
    ensures { IfOk result (λ parts. parts.items ≡ spec.parts_of reply.now) }
{
    let mut parts = Vec::from_slice(alloc, reply.program.bytes())?;
    parts.extend_from_slice(reply.printed.bytes())?;
    parts.extend_from_slice(reply.report.bytes())?;
    parts.extend_from_slice(reply.text.bytes())?;
    Ok(parts)
}

/// How long they are, and what is told beside.
fn told_of(reply: &Reply) -> Told
    ensures { result ≡ spec.told_of reply.now }
{
    Told {
        program: reply.program.bytes().len() as u64,
        printed: reply.printed.bytes().len() as u64,
        report: reply.report.bytes().len() as u64,
        text: reply.text.bytes().len() as u64,
        value: reply.value,
        steps: reply.used.steps,
        cells: reply.used.cells,
        depth: reply.used.depth,
        out: reply.used.out,
    }
}
