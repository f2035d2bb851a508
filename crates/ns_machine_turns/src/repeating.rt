//! Turns of `to:do:` that follow one another: the end of a block that it evaluates, with the method's next action.

ghost use Rattle.std.specs.Prelude.{◌≡◌, ◌≤◌, ◌&&◌};
ghost use Rattle.ns_machine_core.specs.declared.state.Next.TheVariants.{On};
ghost use Rattle.ns_machine_turns.specs.Looping.{HasActed};
ghost use Rattle.ns_machine_turns.specs.Repeating as spec;
ghost use Rattle.ns_machine_turns.specs.Repeating.{EndsTurn};
ghost use Rattle.ns_machine_turns.specs.Turning.{ChargesAtMost, HasGone, RunsBy};

use crate::acting::{Acted, act_on, evaluate};
use crate::laws::{moves_charge_one, moves_go_along};
use ns_code::program::CodeProgram;
use ns_machine_core::own::OwnSends;
use ns_machine_core::state::{Core, Next};
use ns_machine_frames::frame::{Frame, Leaving};
use ns_machine_frames::registers::Registers;
use ns_machine_frames::stack::Stack;
use ns_machine_plan::kept_step::KeptStep;
use ns_machine_plan::packed::Packed;
use ns_machine_plan::plan::Plan;
use ns_machine_returns::laws::topmost_methods_can_act;
use ns_moves::bodies::part_ended;
use ns_world::kernel_parts::KMethod;

/// Whether a step ends a block that `to:do:` evaluates.
#[inline(always)]
pub fn ends_turn(stack: &Stack, step: KeptStep<'_>) -> bool
    ensures { result ≡ (spec.is_return step.entry.packed.now && spec.is_turn stack.now.frames.items) }
{
    match step.packed {
        Packed::Return => is_turn(stack),
        _ => false,
    }
}

/// Whether the topmost frame is one of a block that `to:do:` evaluates.
#[inline(always)]
fn is_turn(stack: &Stack) -> bool
    ensures { result ≡ spec.is_turn stack.now.frames.items }
{
    if stack.count() < 2 {
        return false;
    }
    match *stack.topmost() {
        Frame::Running(frame) => match frame.leaving {
            Leaving::Body => is_to_do(stack.frame(1)),
            Leaving::Method | Leaving::Clause { .. } | Leaving::Part => false,
        },
        Frame::Looping(_) => false,
    }
}

/// Whether a frame is one of `to:do:`.
#[inline(always)]
fn is_to_do(frame: &Frame) -> bool
    ensures { result ≡ spec.is_to_do frame.now }
{
    match *frame {
        Frame::Looping(looping) => match looping.method {
            KMethod::ToDo => true,
            _ => false,
        },
        Frame::Running(_) => false,
    }
}

/// Ends the block of a turn of `to:do:`, does the next action of that, and evaluates its block at once where a step is left: three moves.
#[inline(always)]
pub fn turn_over(
    plan: &Plan,
    code: &CodeProgram,
    core: &mut Core,
    at: Registers,
    left: u64,
    own: OwnSends,
) -> Next
    requires runs { RunsBy code.now plan.now own core.old (On at) }
    requires ends { EndsTurn code.now core.old at }
    requires some { 1 ≤ left }
    ensures gone { HasGone code.now plan.now own left core.old (On at) core.new result }
    ensures few { ChargesAtMost 2 core.old core.new }
{
    moves_go_along();
    moves_charge_one();
    match end_turn(plan, code, core, at, left, own) {
        Acted::Evaluates {
            next,
            top,
            base,
            cell,
        } => evaluate(code, core, Registers { next, top, base }, cell),
        Acted::Goes(to) => to,
    }
}

/// Ends the block, and does the next action: two moves. What the block has answered isn't kept between them, since the method doesn't
/// ask for it, and waits for its next block without it.
#[inline(always)]
fn end_turn(
    plan: &Plan,
    code: &CodeProgram,
    core: &mut Core,
    at: Registers,
    left: u64,
    own: OwnSends,
) -> Acted
    requires runs { RunsBy code.now plan.now own core.old (On at) }
    requires ends { EndsTurn code.now core.old at }
    requires some { 1 ≤ left }
    ensures { HasActed code.now plan.now own left core.old at core.new result }
{
    moves_go_along();
    moves_charge_one();
    topmost_methods_can_act();
    let _plan = plan;
    part_ended(&mut core.run.world);
    let here = core.stack.leave(at);
    act_on(code, core, here, left, own, KMethod::ToDo)
}
