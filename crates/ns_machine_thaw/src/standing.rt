//! What a run stands at that hasn't ended: its frames and what is pending.

ghost use Rattle.std.specs.Prelude.{◌≡◌, ◌+◌, ◌<◌, ◌≤◌, length};
ghost use Rattle.ns_moves.specs.Start.{standing_cells};
ghost use Rattle.ns_frozen.specs.Thawing as thawing;
ghost use Rattle.ns_frozen.specs.Thawing.{going_thawed, heap_thawed, phase_thawed};
ghost use Rattle.ns_machine_core.specs.Shown.{phase_shown, progress_in};
ghost use Rattle.ns_machine_frames.specs.Stack.{stood};
ghost use Rattle.ns_machine_frames.specs.View.{frames_shown};
ghost use Rattle.ns_moves.specs.Valid.{BeginsWith};
ghost use Rattle.ns_machine_plan.specs.Plan.{IsPlanOf};
ghost use Rattle.ns_machine_plan.specs.Steps.{no_place};
ghost use Rattle.ns_world.specs.Heap.{heap_size};
ghost use Rattle.ns_machine_thaw.specs.Frames.{FramesFit, HasDepthRoom, StandLow};
ghost use Rattle.ns_machine_thaw.specs.Thawed.{thawed_shown, StandThawed, StandingIsPut, PendingIsWritten, ArgumentsFit};

use crate::arguments::arguments_in;
use crate::frames::put_frames;
use crate::places::{put_site, put_sites};
use crate::thawed::Thawed;
use crate::waiting::{site_of, wait};
use ns_code::program::CodeProgram;
use ns_frozen::frozen::Frozen;
use ns_frozen::pending::Pending;
use ns_machine_core::places::Places;
use ns_machine_core::state::{Core, Next, Phase};
use ns_machine_frames::registers::Registers;
use ns_machine_plan::plan::Plan;

/// Puts back the frames and what is pending, in a machine whose phase is put back.
#[tactic(auto, using(crate::proofs::Put::sites_stay, crate::proofs::Put::pending_put, crate::proofs::Put::going_put))]
pub fn put_standing(
    code: &CodeProgram,
    plan: &Plan,
    core: &mut Core,
    first: u32,
    frozen: &Frozen,
) -> Thawed
    requires plan { IsPlanOf code.now plan.now }
    requires fit { FramesFit code.now frozen.now.frames }
    requires room { HasDepthRoom code.now (length frozen.now.frames) core.old.stack }
    requires places { first + length frozen.now.frames < length core.old.places }
    requires few { length core.old.places ≤ no_place }
    requires arguments { ArgumentsFit frozen.now.pending core.old.arguments.room }
    requires phase { phase_shown core.old.phase ≡
        phase_thawed (thawing.arguments_in code.now frozen.now.grants (heap_thawed code.now frozen.now.cells)) frozen.now.phase }
    requires begins { BeginsWith (standing_cells code.now frozen.now.grants) (heap_thawed code.now frozen.now.cells) }
    requires small { heap_size (heap_thawed code.now frozen.now.cells) ≤ 64000000 }
    requires classes { length code.now.classes ≤ 4294967295 }
    ensures { StandingIsPut code.now first frozen.now core.old core.new result }
{
    let frames = frozen.frames.as_slice();
    let behind = first + frames.len() as u32;
    put_sites(&mut core.places, first, frames);
    put_pending_site(&mut core.places, behind, &frozen.pending);
    let waits = frozen.pending.is_some();
    let at = put_frames(&mut core.stack, plan, code, first, waits, frames);
    match &frozen.pending {
        Some(pending) => Thawed::Begun(wait(core, at, behind, pending)),
        None => go_on(code, core, at, frozen),
    }
}

/// Writes the place of the site of what is pending, if something is.
#[tactic(auto, using(crate::proofs::Put::some_written, crate::proofs::Put::none_written))]
fn put_pending_site(places: &mut Places, number: u32, pending: &Option<Pending>)
    requires few { length places.old ≤ no_place }
    requires there { number < length places.old }
    ensures { PendingIsWritten number pending.now places.old places.new }
{
    match pending {
        Some(pending) => put_site(places, number, site_of(pending)),
        None => {}
    }
}

/// Goes on with the frames that stand, unless nothing was begun.
fn go_on(code: &CodeProgram, core: &Core, at: Registers, frozen: &Frozen) -> Thawed
    requires stand { StandLow code.now core.now.stack at }
    requires begins { BeginsWith (standing_cells code.now frozen.now.grants) (heap_thawed code.now frozen.now.cells) }
    requires small { heap_size (heap_thawed code.now frozen.now.cells) ≤ 64000000 }
    requires classes { length code.now.classes ≤ 4294967295 }
    ensures state { thawed_shown code.now core.now result ≡ going_thawed (phase_shown core.now.phase)
        (frames_shown code.now core.now.places (stood core.now.stack at)) (progress_in core.now)
        (thawing.arguments_in code.now frozen.now.grants (heap_thawed code.now frozen.now.cells)) }
    ensures stand { StandThawed code.now core.now result }
{
    match core.phase {
        Phase::Start => Thawed::Unbegun {
            arguments: arguments_in(code, frozen.grants, &frozen.cells),
        },
        Phase::First { .. } | Phase::Second | Phase::Hosted => Thawed::Begun(Next::On(at)),
    }
}
