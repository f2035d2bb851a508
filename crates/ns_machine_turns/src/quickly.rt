//! One move by the quick way.

ghost use Rattle.std.specs.Prelude.{◌≡◌};
ghost use Rattle.ns_machine_plan.specs.Plan.{AreStepsOf};
ghost use Rattle.ns_machine_core.specs.declared.state.Next.TheVariants as next;
ghost use Rattle.ns_machine_core.specs.Straight.{IsOnTop};
ghost use Rattle.ns_machine_turns.specs.Prepared.{IsPrepared, IsPreparedToRun};
ghost use Rattle.ns_machine_turns.specs.Quickly.{MovesOrNot};

use crate::fetching::fetch_from;
use crate::performing::perform;
use crate::repeating::ends_turn;
use ns_code::program::CodeProgram;
use ns_machine_core::laws::{moves_keep_machines_ready, passing_keeps_machines_ready};
use ns_machine_core::led::Led;
use ns_machine_core::on_top::OnTop;
use ns_machine_core::state::Core;
use ns_machine_frames::registers::Registers;
use ns_machine_plan::kept_step::KeptSteps;
use ns_machine_plan::plan::Plan;

/// Where the next step of a body leads by the quick way, as `Led` tells it; or nothing was done, since it ends a turn of `to:do:`.
#[derive(Clone, Copy)]
pub enum Went {
    Straight(Registers),
    Charged(Registers),
    On(Registers),
    Answered(Registers),
    Turns,
    Nowhere,
}

/// Does the next step of the body that runs in the topmost frame, where it is one of those that are taken most; else nothing
/// has changed but lookups that are kept.
#[inline(always)]
pub fn go_quickly(
    plan: &Plan,
    code: &CodeProgram,
    core: &mut Core,
    at: Registers,
    top: OnTop,
    steps: KeptSteps<'_>,
) -> Went
    requires prepared { IsPrepared code.now plan.now core.old.places }
    requires can { IsPreparedToRun code.now core.old (next.On at) }
    requires top { IsOnTop code.now top core.old.stack.frames.items }
    requires steps { AreStepsOf code.now top.body steps }
    ensures { MovesOrNot code.now core.old at core.new result }
{
    moves_keep_machines_ready();
    passing_keeps_machines_ready();
    let step = fetch_from(plan, code, core, at, top.body, steps);
    let behind = Registers {
        next: at.next + 1,
        ..at
    };
    if ends_turn(&core.stack, step) {
        return Went::Turns;
    }
    match perform(code, core, behind, top, step) {
        Led::Straight(to) => Went::Straight(to),
        Led::Charged(to) => Went::Charged(to),
        Led::On(to) => Went::On(to),
        Led::Answered(to) => Went::Answered(to),
        Led::Nowhere => Went::Nowhere,
    }
}
