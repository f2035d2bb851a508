//! The snapshot of the run of a program without static faults.

ghost use Rattle.std.specs.Prelude.{◌≡◌, IfOk, IsErrOf};
ghost use Rattle.ns_base.specs.Limits.{InRange};
ghost use Rattle.ns_code.specs.Fits.{Fits};
ghost use Rattle.ns_gen_code.specs.declared.size.SizeKind.{SizeKind};
ghost use Rattle.ns_resolved.specs.Classes.{meant};
ghost use Rattle.ns_run_code.specs.Run.{granted};
ghost use Rattle.ns_run_snap.specs.Snapped as spec;
ghost use Rattle.ns_run_snap.specs.declared.snap.PauseFault.TheVariants.{TooLarge, Snapshot};
ghost use Rattle.ns_snapshot.specs.Bytes.{snapshot_of};

use ns_base::limits::Limits;
use ns_base::no_memory::NoMemory;
use ns_code::program::CodeProgram;
use ns_frozen::frozen::Frozen;
use ns_gen_code::size::SizeKind;
use ns_link::compile::compile;
use ns_link::fault::LinkFault;
use ns_machine::machine::Machine;
use ns_run_code::code::GRANTED;
use ns_session::robin_laws::turns_are_a_function;
use ns_snapshot_write::write::{WriteFault, write_snapshot};
use ns_static::check::Checked;
use ns_verify::verify::Verified;
use std::alloc::Global;

/// Why the run of a program has no snapshot: a size of its code passes its limit, the snapshot would be too large, or no
/// memory was found.
#[derive(Clone, Copy)]
pub enum PauseFault {
    TooLarge(SizeKind),
    Snapshot,
    Memory,
}

impl From<NoMemory> for PauseFault {
    ghost use Rattle.ns_run_snap.specs.declared.snap.PauseFault.TheVariants.{Memory};

    ghost from_gives = { λ _ e. e ≡ Memory };

    fn from(_error: NoMemory) -> PauseFault {
        PauseFault::Memory
    }
}

/// The most bytes of a snapshot.
const MOST_BYTES: u32 = 134_217_728;

/// The snapshot of the run of a program with the console, the kernel and mirrors, within these limits and without arguments,
/// after a turn of so many steps; or the first size of its code that passes its limit, or that the snapshot has too many
/// bytes.
pub fn snap(
    alloc: Global,
    checked: &Checked,
    limits: Limits,
    steps: u64,
) -> Result<Vec<u8>, PauseFault>
    requires { InRange limits }
    ensures snapshot { IfOk result (λ bytes. spec.snapped_of (meant checked.now) limits steps ≡ spec.snapshot bytes.items) }
    ensures large { (kind : SizeKind) → IsErrOf result (TooLarge kind) →
        spec.snapped_of (meant checked.now) limits steps ≡ spec.too_large kind }
    ensures large_snapshot { IsErrOf result Snapshot → spec.snapped_of (meant checked.now) limits steps ≡ spec.snapshot_too_large }
{
    match compile(alloc, checked) {
        Ok(code) => snap_code(alloc, code, limits, steps),
        Err(LinkFault::TooLarge(kind)) => Err(PauseFault::TooLarge(kind)),
        Err(LinkFault::Memory) => Err(PauseFault::Memory),
    }
}

/// The snapshot of such a run of code.
fn snap_code(
    alloc: Global,
    code: Verified,
    limits: Limits,
    steps: u64,
) -> Result<Vec<u8>, PauseFault>
    requires { InRange limits }
    ensures snapshot { IfOk result (λ bytes. spec.of_bytes (spec.snapshot_at code limits steps) ≡ spec.snapshot bytes.items) }
    ensures large_snapshot { IsErrOf result Snapshot → spec.of_bytes (spec.snapshot_at code limits steps) ≡ spec.snapshot_too_large }
    ensures no_size { (kind : SizeKind) → IsErrOf result (TooLarge kind) → ⊥ }
{
    let machine = paused_machine(alloc, code, limits, steps)?;
    let frozen = machine.freeze(alloc)?;
    let told = written(alloc, machine.code(), &frozen);
    drop(frozen);
    drop(machine);
    told
}

/// A machine of code with the console, the kernel and mirrors, within these limits and without arguments, after a turn of so
/// many steps.
fn paused_machine(
    alloc: Global,
    code: Verified,
    limits: Limits,
    steps: u64,
) -> Result<Machine, NoMemory>
    requires { InRange limits }
    ensures { IfOk result (λ machine. machine ≡ record { code = code; grants = granted; state = spec.paused code limits steps }) }
{
    turns_are_a_function();
    let mut machine = Machine::new(alloc, code, limits, GRANTED, &[])?;
    machine.start();
    // That its state is valid is said by this call.
    let _idle = machine.idle();
    let _turn = machine.turn(steps);
    Ok(machine)
}

/// The snapshot of a state of a run of that code, where it isn't too large.
fn written(alloc: Global, code: &CodeProgram, frozen: &Frozen) -> Result<Vec<u8>, PauseFault>
    requires { Fits code.now }
    ensures snapshot { IfOk result (λ bytes. spec.of_bytes (snapshot_of code.now frozen.now) ≡ spec.snapshot bytes.items) }
    ensures large_snapshot { IsErrOf result Snapshot → spec.of_bytes (snapshot_of code.now frozen.now) ≡ spec.snapshot_too_large }
    ensures no_size { (kind : SizeKind) → IsErrOf result (TooLarge kind) → ⊥ }
{
    match write_snapshot(alloc, code, frozen, MOST_BYTES) {
        Ok(bytes) => Ok(bytes),
        Err(WriteFault::TooLarge) => Err(PauseFault::Snapshot),
        Err(WriteFault::Memory) => Err(PauseFault::Memory),
    }
}
