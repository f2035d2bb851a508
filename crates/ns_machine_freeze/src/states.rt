//! States as plain data.

ghost use Rattle.std.specs.Prelude.{◌≡◌, ℕ, true, None, Some, IfOk};
ghost use Rattle.ns_code.specs.declared.program.CodeProgram.{CodeProgram as Code};
ghost use Rattle.ns_moves.specs.State.{Unbegun};
ghost use Rattle.ns_machine_frames.specs.Stack.{with_top, stood, IsLaid};
ghost use Rattle.ns_machine_frames.specs.View.{frames_shown};
ghost use Rattle.ns_machine_core.specs.declared.state.Next.TheVariants as next;
ghost use Rattle.ns_machine_core.specs.Shown.{phase_shown, progress_in, shown};
ghost use Rattle.ns_machine_core.specs.Standing.{StandAt};
ghost use Rattle.ns_frozen.specs.Freezing.{phase_frozen, frozen_at, frames_frozen, frozen_of};

use crate::cells::cells;
use crate::frames::frames;
use crate::waiting::{evaluating, evaluating_kept, performing, sending};
use ns_base::items::Items;
use ns_base::no_memory::NoMemory;
use ns_base::text::Text;
use ns_code::program::CodeProgram;
use ns_facets::row::Grants;
use ns_frozen::frame::FrozenFrame;
use ns_frozen::frozen::Frozen;
use ns_frozen::pending::Pending;
use ns_machine_core::state::{Core, Next, Phase};
use ns_machine_frames::frame::Pending as KeptPending;
use ns_machine_frames::registers::Registers;
use ns_world::ending::Ending;
use std::alloc::Global;

/// The state of a run in which nothing was begun. It fails only for want of memory.
pub fn freeze_unbegun(alloc: Global, grants: Grants, core: &Core) -> Result<Frozen, NoMemory>
    ensures { IfOk result (λ frozen. (code : Code) (arguments : ℕ) → frozen ≡ frozen_of code grants (Unbegun arguments (progress_in core.now))) }
{
    let none = Items::from_vec(Vec::new(alloc));
    with_world(alloc, grants, core, 0, None, None, none)
}

/// The state of a run that was begun, by where it goes next. It fails only for want of memory.
pub fn freeze_begun(
    alloc: Global,
    code: &CodeProgram,
    grants: Grants,
    core: &Core,
    next: Next,
) -> Result<Frozen, NoMemory>
    requires { StandAt code.now core.now next }
    ensures { IfOk result (λ frozen. frozen ≡ frozen_of code.now grants (shown code.now core.now next)) }
{
    match next {
        Next::On(at) => going(alloc, code, grants, core, at),
        Next::Waits(at) => waiting(alloc, code, grants, core, at),
        Next::Ended => ended(alloc, code, grants, core),
    }
}

/// A run that goes on with its topmost frame.
fn going(
    alloc: Global,
    code: &CodeProgram,
    grants: Grants,
    core: &Core,
    at: Registers,
) -> Result<Frozen, NoMemory>
    requires { IsLaid core.now.stack at }
    ensures { IfOk result (λ frozen. frozen ≡ frozen_of code.now grants (shown code.now core.now (next.On at))) }
{
    let frames = frames(alloc, code, core, at, false)?;
    with_world(alloc, grants, core, phase(core.phase), None, None, frames)
}

/// A run that has ended.
fn ended(alloc: Global, code: &CodeProgram, grants: Grants, core: &Core) -> Result<Frozen, NoMemory>
    ensures { IfOk result (λ frozen. frozen ≡ frozen_of code.now grants (shown code.now core.now next.Ended)) }
{
    let _code = code;
    let none = Items::from_vec(Vec::new(alloc));
    with_world(
        alloc,
        grants,
        core,
        phase(core.phase),
        None,
        Some(core.ending),
        none,
    )
}

/// A run that goes on with what waits in it.
fn waiting(
    alloc: Global,
    code: &CodeProgram,
    grants: Grants,
    core: &Core,
    at: Registers,
) -> Result<Frozen, NoMemory>
    requires { StandAt code.now core.now (next.Waits at) }
    ensures { IfOk result (λ frozen. frozen ≡ frozen_of code.now grants (shown code.now core.now (next.Waits at))) }
{
    match core.waiting {
        KeptPending::Nothing => going(alloc, code, grants, core, at),
        KeptPending::Sending {
            receiver,
            sel,
            site,
            floor,
        } => {
            let pending = sending(alloc, core, receiver, sel, site)?;
            pends(alloc, code, grants, core, at, floor, pending)
        }
        KeptPending::Performing {
            receiver,
            sel,
            array,
            site,
            floor,
        } => {
            let pending = performing(core, receiver, sel, array, site);
            pends(alloc, code, grants, core, at, floor, pending)
        }
        KeptPending::Evaluating {
            block,
            site,
            floor,
            first,
        } => {
            let pending = evaluating(alloc, core, at, block, site, first)?;
            pends(alloc, code, grants, core, at, floor, pending)
        }
        KeptPending::EvaluatingKept { block, site, floor } => {
            let pending = evaluating_kept(alloc, core, block, site)?;
            pends(alloc, code, grants, core, at, floor, pending)
        }
    }
}

/// A run in which this waits above the frames whose values end at a floor.
fn pends(
    alloc: Global,
    code: &CodeProgram,
    grants: Grants,
    core: &Core,
    at: Registers,
    floor: u32,
    pending: Pending,
) -> Result<Frozen, NoMemory>
    requires { IsLaid core.now.stack (with_top floor at) }
    ensures { IfOk result (λ frozen. frozen ≡ frozen_at grants (progress_in core.now) (phase_frozen (phase_shown core.now.phase)) (Some pending) None
        (frames_frozen code.now true (frames_shown code.now core.now.places (stood core.now.stack (with_top floor at))))) }
{
    let below = Registers { top: floor, ..at };
    let frames = frames(alloc, code, core, below, true)?;
    with_world(
        alloc,
        grants,
        core,
        phase(core.phase),
        Some(pending),
        None,
        frames,
    )
}

/// What a run has done, with where it stands.
fn with_world(
    alloc: Global,
    grants: Grants,
    core: &Core,
    phase: u8,
    pending: Option<Pending>,
    ending: Option<Ending>,
    frames: Items<FrozenFrame>,
) -> Result<Frozen, NoMemory>
    ensures { IfOk result (λ frozen. frozen ≡ frozen_at grants (progress_in core.now) phase pending ending frames) }
{
    let world = &core.run.world;
    let output = Text::of(alloc, world.output())?;
    let cells = cells(alloc, world)?;
    Ok(Frozen {
        limits: world.limits(),
        used: world.counters(),
        grants,
        board: core.run.board,
        output,
        homes: core.run.begun,
        phase,
        pending,
        ending,
        cells,
        frames,
    })
}

/// How far a run has come, as a number.
fn phase(phase: Phase) -> u8
    ensures { result ≡ phase_frozen (phase_shown phase) }
{
    match phase {
        Phase::Start => 0,
        Phase::First { arguments: _ } => 1,
        Phase::Second => 2,
        Phase::Hosted => 3,
    }
}
