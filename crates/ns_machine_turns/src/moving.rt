//! One move of a run.

ghost use Rattle.std.specs.Prelude.{◌≡◌, false};
ghost use Rattle.ns_moves.specs.Turn.{is_still};
ghost use Rattle.ns_machine_core.specs.declared.state.Next.TheVariants as next;
ghost use Rattle.ns_machine_core.specs.Ready.{MakesMove};
ghost use Rattle.ns_machine_core.specs.Shown.{shown};
ghost use Rattle.ns_machine_turns.specs.Turning.{RunsBy};
ghost use Rattle.ns_machine_turns.specs.Resending.{sent_from_floor};

use crate::resending::{perform_waiting, send_waiting};
use crate::stepping::go_on;
use ns_code::program::CodeProgram;
use ns_machine_core::own::OwnSends;
use ns_machine_core::state::{Core, Next};
use ns_machine_frames::frame::{KeptSite, Pending};
use ns_machine_frames::registers::Registers;
use ns_machine_plan::plan::Plan;
use ns_machine_sends::sent::Sent;
use ns_machine_sends::waiting::{evaluate, evaluate_kept};

/// One move of a run that goes on: the next step of the body that runs, the next action of a method of the kernel, or
/// what waits.
#[inline(always)]
pub fn step(plan: &Plan, code: &CodeProgram, core: &mut Core, next: Next, own: OwnSends) -> Next
    requires runs { RunsBy code.now plan.now own core.old next }
    requires goes { is_still (shown code.now core.old next) ≡ false }
    ensures { MakesMove code.now core.old next core.new result }
{
    match next {
        Next::On(at) => go_on(plan, code, core, at, own),
        Next::Waits(at) => take_up(plan, code, core, at, own),
        Next::Ended => unreachable!(),
    }
}

/// Does what waits, if anything does.
pub fn take_up(
    plan: &Plan,
    code: &CodeProgram,
    core: &mut Core,
    at: Registers,
    own: OwnSends,
) -> Next
    requires { RunsBy code.now plan.now own core.old (next.Waits at) }
    ensures { MakesMove code.now core.old (next.Waits at) core.new result }
{
    match core.waiting {
        Pending::Nothing => go_on(plan, code, core, at, own),
        Pending::Evaluating {
            block,
            site,
            floor,
            first,
        } => evaluate(code, core, at, Sent { site, floor, first }, block),
        Pending::EvaluatingKept { block, site, floor } => {
            evaluate_kept(code, core, at, at_floor(site, floor), block)
        }
        Pending::Sending {
            receiver,
            sel,
            site,
            floor,
        } => send_waiting(code, core, at, at_floor(site, floor), receiver, sel, own),
        Pending::Performing {
            receiver,
            sel,
            array,
            site,
            floor,
        } => perform_waiting(
            code,
            core,
            at,
            at_floor(site, floor),
            receiver,
            sel,
            array,
            own,
        ),
    }
}

/// The same, in code that knows the evaluation of a block before all else.
#[inline(always)]
pub fn take_up_soon(
    plan: &Plan,
    code: &CodeProgram,
    core: &mut Core,
    at: Registers,
    own: OwnSends,
) -> Next
    requires { RunsBy code.now plan.now own core.old (next.Waits at) }
    ensures { MakesMove code.now core.old (next.Waits at) core.new result }
{
    match core.waiting {
        Pending::Evaluating {
            block,
            site,
            floor,
            first,
        } => evaluate(code, core, at, Sent { site, floor, first }, block),
        _ => take_up(plan, code, core, at, own),
    }
}

/// What was sent from a floor on, above which none of its arguments stand.
fn at_floor(site: KeptSite, floor: u32) -> Sent
    ensures { result ≡ sent_from_floor site floor }
{
    Sent {
        site,
        floor,
        first: floor,
    }
}
