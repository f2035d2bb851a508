//! Single moves of a run, of which a turn makes many.

ghost use Rattle.std.specs.Prelude.{◌≡◌};
ghost use Rattle.ns_machine_core.specs.Ready.{MakesMove};
ghost use Rattle.ns_machine_turns.specs.Turning.{RunsBy};

use ns_code::program::CodeProgram;
use ns_machine_core::own::OwnSends;
use ns_machine_core::state::{Core, Next};
use ns_machine_plan::plan::Plan;
use ns_machine_turns::moving::take_up;
use ns_machine_turns::stepping::go_on;

/// One move of a run: that of its topmost frame, or what waits. One that has ended stays as it is.
pub fn step(plan: &Plan, code: &CodeProgram, core: &mut Core, next: Next, own: OwnSends) -> Next
    requires { RunsBy code.now plan.now own core.old next }
    ensures { MakesMove code.now core.old next core.new result }
{
    match next {
        Next::On(at) => go_on(plan, code, core, at, own),
        Next::Waits(at) => take_up(plan, code, core, at, own),
        Next::Ended => next,
    }
}
