//! The moves through the run of a program without static faults.

ghost use Rattle.std.specs.Prelude.{◌≡◌, [], IfOk, IsErrOf, map, string_bytes};
ghost use Rattle.ns_base.specs.Limits.{InRange};
ghost use Rattle.ns_gen_code.specs.declared.size.SizeKind.{SizeKind};
ghost use Rattle.ns_link.specs.declared.fault.LinkFault.TheVariants.{TooLarge};
ghost use Rattle.ns_replay.specs.Replay.{replay_of};
ghost use Rattle.ns_resolved.specs.Classes.{meant};
ghost use Rattle.ns_run_code.specs.Machine.{begins_with};
ghost use Rattle.ns_run_code.specs.Run.{granted};
ghost use Rattle.ns_run_replay.specs.Replayed as spec;
ghost use Rattle.ns_run_words.specs.Words.{move_of};

use crate::moves::lines_from;
use ns_base::limits::Limits;
use ns_base::no_memory::NoMemory;
use ns_facets::row::Grants;
use ns_link::compile::compile;
use ns_link::fault::LinkFault;
use ns_machine::machine::Machine;
use ns_replay::laws::started_machines_can_begin;
use ns_replay::replay::Replay;
use ns_static::check::Checked;
use ns_verify::verify::Verified;
use std::alloc::Global;

/// What a command grants to a run: the console, the kernel and mirrors.
const GRANTED: Grants = Grants {
    console: true,
    kernel: true,
    mirrors: true,
    board: false,
};

/// A state of a run is kept at multiples of so many steps.
const EVERY: u64 = 1_000;

/// The lines of moves through the run of a program with the console, the kernel and mirrors, within these limits and without
/// arguments; or the first size of its code that passes its limit.
#[tactic(auto, using(crate::proofs::Starting::same_program))]
pub fn replay(
    alloc: Global,
    checked: &Checked,
    limits: Limits,
    moves: &[String],
) -> Result<Vec<u8>, LinkFault>
    requires { InRange limits }
    ensures lines { IfOk result (λ lines. spec.replayed_of (meant checked.now) limits (map move_of (map string_bytes moves.now)) ≡ spec.lines lines.items) }
    ensures large { (kind : SizeKind) → IsErrOf result (TooLarge kind) →
        spec.replayed_of (meant checked.now) limits (map move_of (map string_bytes moves.now)) ≡ spec.too_large kind }
{
    match compile(alloc, checked) {
        Ok(code) => match lines_of(alloc, code, limits, moves) {
            Ok(lines) => Ok(lines),
            Err(NoMemory) => Err(LinkFault::Memory),
        },
        Err(fault) => Err(fault),
    }
}

/// The lines of moves through such a run of code.
fn lines_of(
    alloc: Global,
    code: Verified,
    limits: Limits,
    moves: &[String],
) -> Result<Vec<u8>, NoMemory>
    requires { InRange limits }
    ensures { IfOk result (λ lines. lines.items ≡ spec.lines_of code limits (map move_of (map string_bytes moves.now))) }
{
    let mut replay = begun(alloc, code, limits)?;
    // That no step is used there is said by this call.
    let _position = replay.position();
    let lines = lines_from(alloc, &mut replay, moves);
    drop(replay);
    lines
}

/// A replay of such a run, at its start.
fn begun(alloc: Global, code: Verified, limits: Limits) -> Result<Replay, NoMemory>
    requires { InRange limits }
    ensures { IfOk result (λ replay. replay ≡ replay_of (record { code = code; grants = granted; state = begins_with code limits [] })) }
{
    started_machines_can_begin();
    let mut machine = Machine::new(alloc, code, limits, GRANTED, &[])?;
    machine.start();
    Replay::new(alloc, machine, EVERY)
}
