//! A step of a body, apart from the loop over those that are taken most: a send to a Block comes first.

ghost use Rattle.std.specs.Prelude.{◌≡◌};
ghost use Rattle.ns_machine_plan.specs.Packed.{EntryIsThere, step_in};
ghost use Rattle.ns_machine_plan.specs.Steps.{instr_of, place_of};
ghost use Rattle.ns_machine_core.specs.declared.state.Next.TheVariants as next;
ghost use Rattle.ns_machine_core.specs.Doing.{CanDo, IsRunning};
ghost use Rattle.ns_machine_core.specs.Ready.{MakesMove};
ghost use Rattle.ns_machine_quick.specs.Values.{DoesOrNot};
ghost use Rattle.ns_machine_turns.specs.Prepared.{IsPrepared, IsPreparedToRun};
ghost use Rattle.ns_machine_turns.specs.Quickly.{GoesOrNot};
ghost use Rattle.ns_machine_turns.specs.Turning.{RunsBy};

use crate::fetching::fetch_kept;
use crate::stepping::run_on;
use ns_code::program::CodeProgram;
use ns_machine_core::laws::moves_keep_machines_ready;
use ns_machine_core::own::OwnSends;
use ns_machine_core::settling::running;
use ns_machine_core::state::{Core, Next};
use ns_machine_frames::registers::Registers;
use ns_machine_plan::kept_step::KeptStep;
use ns_machine_plan::packed::Packed;
use ns_machine_plan::plan::Plan;
use ns_machine_quick::values::send_block;

/// Does the next step of the body that runs in the topmost frame.
#[inline(always)]
pub fn move_on(
    plan: &Plan,
    code: &CodeProgram,
    core: &mut Core,
    at: Registers,
    own: OwnSends,
) -> Next
    requires runs { RunsBy code.now plan.now own core.old (next.On at) }
    requires running { IsRunning core.old.stack.frames.items }
    ensures { MakesMove code.now core.old (next.On at) core.new result }
{
    match send_on(plan, code, core, at) {
        Some(next) => next,
        None => run_on(plan, code, core, at, own),
    }
}

/// Does the next step, where that is a send to a Block by the quick way; else nothing has changed but the lookups that are kept.
#[inline(always)]
fn send_on(plan: &Plan, code: &CodeProgram, core: &mut Core, at: Registers) -> Option<Next>
    requires prepared { IsPrepared code.now plan.now core.old.places }
    requires can { IsPreparedToRun code.now core.old (next.On at) }
    requires running { IsRunning core.old.stack.frames.items }
    ensures { GoesOrNot code.now core.old at core.new result }
{
    moves_keep_machines_ready();
    let frame = running(&core.stack);
    let step = fetch_kept(plan, code, core, at, frame.activation.body);
    let behind = Registers {
        next: at.next + 1,
        ..at
    };
    match send_step(code, core, behind, step) {
        Some(next) => Some(next),
        None => None,
    }
}

/// Does a step, behind which the registers stand, likewise.
#[inline(always)]
fn send_step(code: &CodeProgram, core: &mut Core, at: Registers, step: KeptStep<'_>) -> Option<Next>
    requires there { EntryIsThere step.tables.now step.packed.now }
    requires can { CanDo code.now core.old at (instr_of (step_in step)) }
    ensures { DoesOrNot code.now (instr_of (step_in step.entry)) (place_of core.old.places (step_in step.entry)) core.old at core.new result }
{
    let tables = step.tables;
    match step.packed {
        Packed::Send(send) => send_block(code, core, at, tables.send(*send)),
        _ => None,
    }
}
