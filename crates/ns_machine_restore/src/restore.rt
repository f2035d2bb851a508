//! A machine whose run is that of plain data, or of the bytes of a snapshot.

ghost use Rattle.std.specs.Prelude.{◌≡◌, IfOk, Ok};
ghost use Rattle.ns_base.specs.Limits.{InRange};
ghost use Rattle.ns_frozen.specs.Fault as spec;
ghost use Rattle.ns_frozen.specs.Fault.{IsValid};
ghost use Rattle.ns_moves.specs.State.{world_of};
ghost use Rattle.ns_machine_restore.specs.Restored.{MachineAnswers, Restores};
ghost use Rattle.ns_snapshot.specs.Snapshot.{of_data, read_snapshot};

use crate::laws::read_limits_are_in_range;
use ns_base::limits::Limits;
use ns_base::no_memory::NoMemory;
use ns_frozen::fault::RestoreFault;
use ns_frozen::frozen::Frozen;
use ns_frozen_valid::fault::first_fault;
use ns_machine::machine::Machine;
use ns_snapshot::fault::SnapFault;
use ns_snapshot::snapshot::Snapshot;
use ns_snapshot_read::read::{part_fault, read_data};
use std::alloc::Global;

/// Puts the run of a machine where plain data stands, with what that is granted; or tells the first part of it that can't be,
/// and then the machine is as it was. Memory is taken for the test alone.
pub fn restore(
    alloc: Global,
    machine: &mut Machine,
    frozen: &Frozen,
) -> Result<Option<RestoreFault>, NoMemory>
    ensures { Restores machine.old frozen.now result machine.new }
{
    match tested(alloc, machine, frozen) {
        Ok(Some(fault)) => Ok(Some(fault)),
        Ok(None) => {
            machine.restore_valid(frozen);
            Ok(None)
        }
        Err(NoMemory) => Err(NoMemory),
    }
}

/// The first part of plain data that can't be, in a run of that machine.
fn tested(
    alloc: Global,
    machine: &Machine,
    frozen: &Frozen,
) -> Result<Option<RestoreFault>, NoMemory>
    ensures { IfOk result (λ fault. fault ≡ spec.restore_fault machine.now.code (world_of machine.now.state).limits frozen.now) }
{
    if same_limits(machine.world().limits(), frozen.limits) {
        first_fault(alloc, machine.code(), frozen)
    } else {
        Ok(Some(RestoreFault::BadLimits))
    }
}

/// Whether limits are the same.
fn same_limits(one: Limits, other: Limits) -> bool
    ensures { result ≡ spec.same_limits one other }
{
    (one.steps == other.steps && one.cells == other.cells)
        && (one.depth == other.depth && one.out == other.out)
}

/// The machine of a snapshot, within its limits and with what it is granted; or the first fault of the bytes, of the image, or
/// of the state. It takes the memory of the limits, which may be far more than that of the snapshot.
pub fn read_snap(alloc: Global, bytes: &[u8]) -> Result<Machine, SnapFault>
    ensures { MachineAnswers (read_snapshot bytes.now) result }
{
    read_limits_are_in_range();
    match read_data(alloc, bytes) {
        Ok(snapshot) => admitted(alloc, snapshot),
        Err(fault) => Err(fault),
    }
}

/// The machine of a snapshot whose state is valid, or the fault of that.
fn admitted(alloc: Global, snapshot: Snapshot) -> Result<Machine, SnapFault>
    requires { InRange snapshot.frozen.limits }
    ensures { MachineAnswers (of_data (Ok snapshot)) result }
{
    match first_fault(alloc, snapshot.code.code(), &snapshot.frozen) {
        Ok(None) => machine_of(alloc, snapshot),
        Ok(Some(fault)) => {
            drop(snapshot);
            Err(part_fault(fault))
        }
        Err(NoMemory) => {
            drop(snapshot);
            Err(SnapFault::Memory)
        }
    }
}

/// The machine of a valid snapshot.
fn machine_of(alloc: Global, snapshot: Snapshot) -> Result<Machine, SnapFault>
    requires valid { IsValid snapshot.code snapshot.frozen }
    requires range { InRange snapshot.frozen.limits }
    ensures { MachineAnswers (Ok snapshot) result }
{
    let Snapshot { code, frozen } = snapshot;
    match Machine::new(alloc, code, frozen.limits, frozen.grants, &[]) {
        Ok(mut machine) => {
            machine.restore_valid(&frozen);
            drop(frozen);
            Ok(machine)
        }
        Err(NoMemory) => {
            drop(frozen);
            Err(SnapFault::Memory)
        }
    }
}
