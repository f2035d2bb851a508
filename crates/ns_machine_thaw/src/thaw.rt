//! A whole state, put back.

ghost use Rattle.std.specs.Prelude.{◌≡◌, ◌+◌, ◌<◌, ◌≤◌, length};
ghost use Rattle.ns_moves.specs.Room.{HasCellRoom};
ghost use Rattle.ns_moves.specs.Start.{standing_cells};
ghost use Rattle.ns_frozen.specs.Fault.{IsValid};
ghost use Rattle.ns_frozen.specs.Laws.{CanStand};
ghost use Rattle.ns_frozen.specs.Thawing as thawing;
ghost use Rattle.ns_frozen.specs.Thawing.{heap_thawed, phase_thawed, world_thawed};
ghost use Rattle.ns_machine_core.specs.Shown.{phase_shown};
ghost use Rattle.ns_machine_core.specs.Standing.{HasRooms};
ghost use Rattle.ns_moves.specs.Valid.{BeginsWith};
ghost use Rattle.ns_machine_plan.specs.Plan.{IsPlanOf};
ghost use Rattle.ns_machine_plan.specs.Steps.{no_place};
ghost use Rattle.ns_world.specs.Heap.{heap_size};
ghost use Rattle.ns_world.specs.Lawful.{IsLawful};
ghost use Rattle.ns_machine_thaw.specs.Thawed.{IsThawed, RunIsPut};

use crate::arguments::arguments_in;
use crate::standing::put_standing;
use crate::thawed::Thawed;
use crate::world::put_world;
use ns_code::program::CodeProgram;
use ns_frozen::frozen::Frozen;
use ns_frozen::laws::valid_states_thaw;
use ns_machine_core::state::{Core, Next, Phase};
use ns_machine_plan::plan::Plan;
use ns_moves::run::Run;
use ns_verify::laws::heights_agree;

/// Puts a valid state back in place of what a machine of the same limits has done. The places of its sites have numbers
/// from a first one on, from where on there is one for each frame and one more. Takes no memory.
pub fn thaw(code: &CodeProgram, plan: &Plan, core: &mut Core, first: u32, frozen: &Frozen) -> Thawed
    requires plan { IsPlanOf code.now plan.now }
    requires valid { IsValid code.now frozen.now }
    requires stand { CanStand code.now frozen.now }
    requires limits { frozen.now.limits ≡ core.old.run.world.world.limits }
    requires rooms { HasRooms code.now core.old }
    requires places { first + core.old.run.world.world.limits.depth < length core.old.places }
    requires few { length core.old.places ≤ no_place }
    ensures { IsThawed code.now first frozen.now core.old core.new result }
{
    valid_states_thaw();
    heights_agree();
    put_run(&mut core.run, code, frozen);
    core.phase = phase_of(code, frozen);
    match frozen.ending {
        Some(ending) => {
            core.ending = ending;
            Thawed::Begun(Next::Ended)
        }
        None => put_standing(code, plan, core, first, frozen),
    }
}

/// Puts back what has been done, and forgets the lookups that were kept.
#[tactic(auto, using(crate::proofs::Whole::run_put))]
fn put_run(run: &mut Run, code: &CodeProgram, frozen: &Frozen)
    requires cells { HasCellRoom run.old.world }
    requires out { run.old.world.world.limits.out ≤ run.old.world.out_room }
    requires limits { frozen.now.limits ≡ run.old.world.world.limits }
    requires lawful { IsLawful (world_thawed code.now frozen.now) code.now }
    ensures { RunIsPut code.now frozen.now run.old run.new }
{
    put_world(&mut run.world, code, frozen);
    run.memo.clear();
    run.board = frozen.board;
    run.begun = frozen.homes;
}

/// How far a run has come.
fn phase_of(code: &CodeProgram, frozen: &Frozen) -> Phase
    requires begins { frozen.now.phase ≡ 1
        → BeginsWith (standing_cells code.now frozen.now.grants) (heap_thawed code.now frozen.now.cells) }
    requires small { heap_size (heap_thawed code.now frozen.now.cells) ≤ 64000000 }
    requires classes { length code.now.classes ≤ 4294967295 }
    ensures { phase_shown result ≡
        phase_thawed (thawing.arguments_in code.now frozen.now.grants (heap_thawed code.now frozen.now.cells)) frozen.now.phase }
{
    match frozen.phase {
        0 => Phase::Start,
        1 => Phase::First {
            arguments: arguments_in(code, frozen.grants, &frozen.cells),
        },
        2 => Phase::Second,
        _ => Phase::Hosted,
    }
}
