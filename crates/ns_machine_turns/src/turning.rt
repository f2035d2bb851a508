//! Turns: so many moves as so many steps allow.

ghost use Rattle.std.specs.Prelude.{◌≡◌, ◌-◌, ◌<◌, ◌≤◌, length, false};
ghost use Rattle.ns_code.specs.declared.program.CodeProgram.{CodeProgram};
ghost use Rattle.ns_facets.specs.declared.row.Grants.{Grants};
ghost use Rattle.ns_moves.specs.Turn.{is_still, Turns};
ghost use Rattle.ns_machine_core.specs.declared.state.Core.{Core as AnyCore};
ghost use Rattle.ns_machine_core.specs.Doing.{IsRunning};
ghost use Rattle.ns_machine_core.specs.Shown.{shown};
ghost use Rattle.ns_machine_core.specs.Ready.{MachineIsReady, MakesMove};
ghost use Rattle.ns_machine_core.specs.Standing.{KeepsRooms};
ghost use Rattle.ns_machine_core.specs.Straight.{TopRunsBody};
ghost use Rattle.ns_machine_core.specs.declared.state.Next.TheVariants as next;
ghost use Rattle.ns_machine_turns.specs.Turning.{ChargesAtMost, HasGone, RunsBy};
ghost use Rattle.ns_machine_turns.specs.declared.way.Way.TheVariants as way;
ghost use Rattle.ns_machine_turns.specs.Ways as spec;
ghost use Rattle.ns_machine_turns.specs.Ways.{HasLed};

use crate::acting::act_along;
use crate::blockwise::move_on;
use crate::charging::charges;
use crate::laws::{moves_charge_one, moves_go_along, passing_goes_along};
use crate::moving::{step, take_up, take_up_soon};
use crate::quickly::{Went, go_quickly};
use crate::repeating::turn_over;
use crate::way::Way;
use ns_code::program::CodeProgram;
use ns_machine_core::laws::{moves_keep_machines_ready, turns_go_by_moves};
use ns_machine_core::on_top::OnTop;
use ns_machine_core::own::OwnSends;
use ns_machine_core::state::{Core, Next};
use ns_machine_frames::frame::Frame;
use ns_machine_frames::registers::Registers;
use ns_machine_frames::stack::Stack;
use ns_machine_plan::laws::running_bodies_have_steps;
use ns_machine_plan::plan::Plan;
use ns_moves::falling::moves_lower;
use ns_moves::move_laws::{moves_charge_as_told, moves_go_onward};
use ns_moves::valid_frames::moves_keep_valid;

/// A turn of so many steps: moves up to the end of the run, or up to the first that would charge a step more.
///
/// While steps are left no move is tested before it is made, since none can charge more than one.
pub fn turn(
    plan: &Plan,
    code: &CodeProgram,
    core: &mut Core,
    next: Next,
    steps: u64,
    own: OwnSends,
) -> Next
    requires { RunsBy code.now plan.now own core.old next }
    ensures turns { Turns code.now steps (shown code.now core.old next) (shown code.now core.new result) }
    ensures ready { (grants : Grants) → MachineIsReady code.now grants core.old next → MachineIsReady code.now grants core.new result }
    ensures stays { KeepsRooms core.old core.new }
{
    turns_go_by_moves();
    moves_charge_as_told();
    moves_keep_valid();
    moves_keep_machines_ready();
    moves_go_onward();
    moves_lower();
    let begun = core.run.world.counters().steps;
    let mut here = next;
    'moves: loop {
        if is_ended(here) {
            return here;
        }
        let used = core.run.world.counters().steps - begun;
        if steps <= used {
            break 'moves;
        }
        here = go_along(plan, code, core, here, steps - used, own);
    }
    'last: loop {
        if is_ended(here) {
            return here;
        }
        if charges(plan, code, core, here) {
            return here;
        }
        here = step_apart(plan, code, core, here, own);
    }
}

/// Moves with so many steps left: as long as the topmost frame goes on, and else the one of what waits.
#[inline(always)]
fn go_along(
    plan: &Plan,
    code: &CodeProgram,
    core: &mut Core,
    next: Next,
    left: u64,
    own: OwnSends,
) -> Next
    requires runs { RunsBy code.now plan.now own core.old next }
    requires goes { is_still (shown code.now core.old next) ≡ false }
    requires some { 1 ≤ left }
    ensures { HasGone code.now plan.now own left core.old next core.new result }
{
    moves_go_along();
    match next {
        Next::On(at) => run_along(plan, code, core, at, left, own),
        Next::Waits(at) => take_up(plan, code, core, at, own),
        Next::Ended => unreachable!(),
    }
}

/// Moves with so many steps left, for as long as the topmost frame goes on: straight on in a body, as far as that goes, and one move
/// more; or the next action of a method of the kernel. The registers stay in local variables: no other way on is carried from one
/// frame to the next. So do the steps left, off which each takes the most that it can have charged: fewer may be told than there are.
#[inline(always)]
fn run_along(
    plan: &Plan,
    code: &CodeProgram,
    core: &mut Core,
    at: Registers,
    left: u64,
    own: OwnSends,
) -> Next
    requires runs { RunsBy code.now plan.now own core.old (next.On at) }
    requires some { 1 ≤ left }
    ensures { HasGone code.now plan.now own left core.old (next.On at) core.new result }
{
    moves_go_along();
    let mut here = at;
    let mut rest = left;
    'along: loop {
        match *core.stack.topmost() {
            Frame::Running(frame) => match go_straight(
                plan,
                code,
                core,
                here,
                frame.activation.body,
                rest,
                own,
            ) {
                Way::On { to, sure } => {
                    if sure == 0 {
                        return Next::On(to);
                    }
                    rest = sure;
                    here = to;
                }
                Way::Waits(to) => return Next::Waits(to),
                Way::Ended => return Next::Ended,
            },
            Frame::Looping(_) => match act_along(
                plan, code, core, here.next, here.top, here.base, rest, own,
            ) {
                Next::On(to) => {
                    if rest <= 2 {
                        return Next::On(to);
                    }
                    rest -= 2;
                    here = to;
                }
                Next::Waits(to) => return Next::Waits(to),
                Next::Ended => return Next::Ended,
            },
        }
    }
}

/// Goes straight on in the body that runs in the topmost frame, and makes one move more, by the quick way where that does it.
/// Up to there the body stays on top, so the frame isn't looked at, and the steps that moves charge are taken off those left here,
/// so neither are the world's counters. With none left that was the last move.
#[inline(always)]
fn go_straight(
    plan: &Plan,
    code: &CodeProgram,
    core: &mut Core,
    at: Registers,
    body: u32,
    left: u64,
    own: OwnSends,
) -> Way
    requires runs { RunsBy code.now plan.now own core.old (next.On at) }
    requires body { TopRunsBody body core.old.stack.frames.items }
    requires some { 1 ≤ left }
    ensures { HasLed code.now plan.now own left core.old (next.On at) core.new result }
{
    moves_go_along();
    passing_goes_along();
    moves_charge_one();
    running_bodies_have_steps();
    let steps = plan.steps_of(code, body);
    let top = OnTop {
        body,
        environment: plan.row(code, body).environment,
    };
    let mut here = at;
    let mut rest = left;
    'straight: loop {
        let behind = Registers {
            next: here.next + 1,
            ..here
        };
        match go_quickly(plan, code, core, here, top, steps) {
            Went::Straight(to) => here = to,
            Went::Charged(to) => {
                rest -= 1;
                if rest == 0 {
                    return Way::On { to, sure: 0 };
                }
                here = to;
            }
            Went::On(to) => return way_on(to, rest),
            Went::Answered(to) => return way_on(to, rest),
            Went::Turns => {
                let way = way_of(turn_over(plan, code, core, here, rest, own), rest);
                match way {
                    Way::On { to, sure } => {
                        if sure == 0 {
                            return way;
                        }
                        if !is_on_top(&core.stack, body) {
                            return way;
                        }
                        rest = sure;
                        here = to;
                    }
                    Way::Waits(_) | Way::Ended => return way,
                }
            }
            Went::Nowhere => {
                let before = step_back(behind);
                return way_of(go_apart(plan, code, core, before, rest, own), rest);
            }
        }
    }
}

/// Whether the topmost frame is one of that body.
#[inline(always)]
fn is_on_top(stack: &Stack, body: u32) -> bool
    requires { 0 < length stack.now.frames.items }
    ensures { result ≡ spec.is_on_top body stack.now.frames.items }
{
    match *stack.topmost() {
        Frame::Running(frame) => frame.activation.body == body,
        Frame::Looping(_) => false,
    }
}

/// On, behind what may have charged one of so many steps.
#[inline(always)]
fn way_on(to: Registers, rest: u64) -> Way
    requires { 1 ≤ rest }
    ensures { result ≡ way.On to (rest - 1) }
{
    Way::On { to, sure: rest - 1 }
}

/// The registers before a step, from those behind it.
// The number of the step itself isn't needed any more when a step is done by the quick way, so that only the next one has to be
// carried through it.
#[inline(always)]
fn step_back(behind: Registers) -> Registers
    ensures { result ≡ record behind { next = behind.next - 1 } }
{
    Registers {
        next: behind.next.saturating_sub(1),
        ..behind
    }
}

/// Goes on with the topmost frame, where the quick way doesn't do it: a method of the kernel, or a body.
#[inline(always)]
fn go_apart(
    plan: &Plan,
    code: &CodeProgram,
    core: &mut Core,
    at: Registers,
    left: u64,
    own: OwnSends,
) -> Next
    requires runs { RunsBy code.now plan.now own core.old (next.On at) }
    requires some { 1 ≤ left }
    ensures gone { HasGone code.now plan.now own left core.old (next.On at) core.new result }
    ensures few { ChargesAtMost 2 core.old core.new }
{
    moves_go_along();
    match *core.stack.topmost() {
        Frame::Looping(_) => act_along(plan, code, core, at.next, at.top, at.base, left, own),
        Frame::Running(_) => run_apart(plan, code, core, at, left, own),
    }
}

/// Does the next step of a body, and then what waits, where a step is left.
#[inline(never)]
fn run_apart(
    plan: &Plan,
    code: &CodeProgram,
    core: &mut Core,
    at: Registers,
    left: u64,
    own: OwnSends,
) -> Next
    requires runs { RunsBy code.now plan.now own core.old (next.On at) }
    requires running { IsRunning core.old.stack.frames.items }
    requires some { 1 ≤ left }
    ensures gone { HasGone code.now plan.now own left core.old (next.On at) core.new result }
    ensures few { ChargesAtMost 2 core.old core.new }
{
    moves_go_along();
    moves_charge_one();
    let moved = move_on(plan, code, core, at, own);
    if left < 2 {
        return moved;
    }
    match moved {
        Next::Waits(to) => take_up_soon(plan, code, core, to, own),
        Next::On(_) | Next::Ended => moved,
    }
}

/// Where that led, behind what may have charged two of so many steps. It is read once from where a call has written it, so that no other
/// way on goes through memory.
#[inline(always)]
fn way_of(next: Next, rest: u64) -> Way
    ensures { result ≡ spec.way_of next rest }
{
    match next {
        Next::On(to) => Way::On {
            to,
            sure: rest.saturating_sub(2),
        },
        Next::Waits(to) => Way::Waits(to),
        Next::Ended => Way::Ended,
    }
}

/// One move, apart from the loop in which it is made for as long as steps are left.
fn step_apart(plan: &Plan, code: &CodeProgram, core: &mut Core, next: Next, own: OwnSends) -> Next
    requires runs { RunsBy code.now plan.now own core.old next }
    requires goes { is_still (shown code.now core.old next) ≡ false }
    ensures { MakesMove code.now core.old next core.new result }
{
    step(plan, code, core, next, own)
}

/// Whether a run has ended.
#[inline(always)]
fn is_ended(next: Next) -> bool
    ensures { (code : CodeProgram) (core : AnyCore) → result ≡ is_still (shown code core next) }
{
    match next {
        Next::On(_) | Next::Waits(_) => false,
        Next::Ended => true,
    }
}
