//! Runs from where they stand to their end.

ghost use Rattle.ns_machine_turns.specs.Turning.{RunsBy};
ghost use Rattle.ns_machine.specs.Turning.{RunsOut};

use ns_code::program::CodeProgram;
use ns_machine_core::own::OwnSends;
use ns_machine_core::state::{Core, Next};
use ns_machine_plan::plan::Plan;
use ns_machine_turns::turning::turn;
use ns_moves::move_laws::{ended_runs_stay, moves_go_onward};
use ns_world::ending::Ending;

/// Moves up to the end of a run, which the limit on steps bounds: no run has one step more.
pub fn run_out(
    plan: &Plan,
    code: &CodeProgram,
    core: &mut Core,
    next: Next,
    own: OwnSends,
) -> Ending
    requires { RunsBy code.now plan.now own core.old next }
    ensures { RunsOut code.now core.old next core.new result }
{
    ended_runs_stay();
    moves_go_onward();
    let steps = core.run.world.limits().steps.saturating_add(1);
    match turn(plan, code, core, next, steps, own) {
        Next::Ended => core.ending,
        Next::On(_) | Next::Waits(_) => unreachable!(),
    }
}
