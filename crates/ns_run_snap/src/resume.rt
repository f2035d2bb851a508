//! The run that goes on from a snapshot.

ghost use Rattle.std.specs.Prelude.{◌≡◌, IfOk, IsErrOf};
ghost use Rattle.ns_run_snap.specs.Resumed as spec;
ghost use Rattle.ns_run_snap.specs.declared.resume.ResumeFault.TheVariants.{Snapshot};
ghost use Rattle.ns_snapshot.specs.declared.fault.SnapFault.{SnapFault as WhyNoSnapshot};

use ns_base::no_memory::NoMemory;
use ns_machine::machine::Machine;
use ns_machine_restore::restore::read_snap;
use ns_moves::valid_world::opening_sends_are_valid;
use ns_run_code::code::finished;
use ns_run_code::laws::runs_end_at_rest;
use ns_run_code::run::Ran;
use ns_snapshot::fault::SnapFault;
use std::alloc::Global;

/// Why no run goes on: the bytes are no snapshot (never for want of memory, which has its own variant), or no memory was
/// found.
#[derive(Clone, Copy)]
pub enum ResumeFault {
    Snapshot(SnapFault),
    Memory,
}

impl From<NoMemory> for ResumeFault {
    ghost use Rattle.ns_run_snap.specs.declared.resume.ResumeFault.TheVariants.{Memory};

    ghost from_gives = { λ _ e. e ≡ Memory };

    fn from(_error: NoMemory) -> ResumeFault {
        ResumeFault::Memory
    }
}

/// The run that goes on from a snapshot to its end; or the first fault of the bytes, of the code, or of the state.
pub fn resume(alloc: Global, bytes: &[u8]) -> Result<Ran, ResumeFault>
    ensures ran { IfOk result (λ ran. spec.resumed bytes.now ≡ spec.has_run ran) }
    ensures snapshot { (fault : WhyNoSnapshot) → IsErrOf result (Snapshot fault) → spec.resumed bytes.now ≡ spec.refused fault }
{
    match read_snap(alloc, bytes) {
        Ok(machine) => {
            let ran = gone_on(alloc, machine)?;
            Ok(ran)
        }
        Err(fault) => Err(told_fault(fault)),
    }
}

/// The run of a machine on to its end; one in which nothing was begun is started.
fn gone_on(alloc: Global, machine: Machine) -> Result<Ran, NoMemory>
    ensures { IfOk result (λ ran. ran ≡ spec.run_on machine.code machine.state) }
{
    opening_sends_are_valid();
    runs_end_at_rest();
    let mut machine = machine;
    // That its state is valid is said by this call.
    let _idle = machine.idle();
    machine.run();
    let ran = finished(alloc, &machine)?;
    Ok(ran)
}

/// The fault of a snapshot, with want of memory as a variant of its own.
fn told_fault(fault: SnapFault) -> ResumeFault
    ensures { result ≡ spec.told_fault fault }
{
    match fault {
        SnapFault::Memory => ResumeFault::Memory,
        fault => ResumeFault::Snapshot(fault),
    }
}
