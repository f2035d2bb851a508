//! A program from its bytes, and its turns.

ghost use Rattle.std.specs.Prelude.{◌≡◌, IfOk, Some, false};
ghost use Rattle.ns_opened.specs.Opened as spec;

use ns_base::no_memory::NoMemory;
use ns_machine::machine::Machine;
use ns_machine_restore::restore::read_snap;
use ns_reply::reply::{Refusal, Reply, refused, reply_of};
use ns_session::robin_laws::turns_are_a_function;
use ns_snapshot::fault::SnapFault;
use std::alloc::Global;

/// The program of these bytes, if they are those of one.
#[tactic(auto, using(crate::proofs::Reading::found, crate::proofs::Reading::not_found))]
pub fn read(alloc: Global, bytes: &[u8]) -> Result<Option<Machine>, NoMemory>
    ensures { IfOk result (λ machine. machine ≡ spec.program_in bytes.now) }
{
    match read_snap(alloc, bytes) {
        Ok(machine) => Ok(Some(machine)),
        Err(fault) => {
            unless_memory(fault)?;
            Ok(None)
        }
    }
}

/// Goes on, but for want of memory.
fn unless_memory(fault: SnapFault) -> Result<(), NoMemory>
    ensures { IfOk result (λ _. spec.is_memory fault ≡ false) }
{
    match fault {
        SnapFault::Memory => Err(NoMemory),
        SnapFault::NotASnapshot => Ok(()),
        SnapFault::BadVersion => Ok(()),
        SnapFault::Truncated => Ok(()),
        SnapFault::BadField(_) => Ok(()),
        SnapFault::Trailing => Ok(()),
        SnapFault::BadImage => Ok(()),
        SnapFault::BadCell(_) => Ok(()),
        SnapFault::BadFrame(_) => Ok(()),
        SnapFault::BadRest => Ok(()),
    }
}

/// A turn of so many steps of the program of these bytes, and what is told of it then.
pub fn turn(alloc: Global, name: u64, bytes: &[u8], steps: u64) -> Result<Reply, NoMemory>
    ensures { IfOk result (λ reply. reply ≡ spec.turn_answer name steps bytes.now) }
{
    match read(alloc, bytes)? {
        Some(machine) => {
            let mut machine = machine;
            turn_machine(alloc, name, &mut machine, steps)
        }
        None => refused(alloc, Refusal::NotAProgram),
    }
}

/// The same of a program.
fn turn_machine(
    alloc: Global,
    name: u64,
    machine: &mut Machine,
    steps: u64,
) -> Result<Reply, NoMemory>
    ensures { IfOk result (λ reply. reply ≡ spec.turn_of name steps (Some machine.old)) }
{
    let before = machine.output().len();
    go_on(machine, steps);
    reply_of(alloc, name, before, machine)
}

/// Gives a program a turn of so many steps; one in which nothing was begun is started.
pub fn go_on(machine: &mut Machine, steps: u64)
    ensures { machine.new ≡ spec.gone_on steps machine.old }
{
    turns_are_a_function();
    machine.start();
    // That its state is valid is said by this call.
    let _idle = machine.idle();
    let _turn = machine.turn(steps);
}
