//! One move of the topmost frame: the next step of the body that runs, or the next action of a method of the kernel.

ghost use Rattle.std.specs.Prelude.{slice_get};
ghost use Rattle.ns_machine_plan.specs.Steps.{instr_of, place_of, send_instr};
ghost use Rattle.ns_machine_core.specs.declared.state.Next.TheVariants as next;
ghost use Rattle.ns_machine_core.specs.Doing.{CanDo, IsDone, IsRunning};
ghost use Rattle.ns_machine_core.specs.Own.{AreOwn};
ghost use Rattle.ns_machine_core.specs.Ready.{MakesMove};
ghost use Rattle.ns_machine_turns.specs.Turning.{RunsBy};

use crate::fetching::fetch;
use ns_base::selector::Sel;
use ns_code::program::CodeProgram;
use ns_find::found::Sending;
use ns_machine_core::jumping::{jump, jump_false, jump_true};
use ns_machine_core::laws::moves_keep_machines_ready;
use ns_machine_core::locals::{push_local, store_local};
use ns_machine_core::making::{make_array, push_block, push_text};
use ns_machine_core::own::OwnSends;
use ns_machine_core::pushing::{
    push_false, push_int, push_nil, push_outer, push_self, push_sym, push_true,
};
use ns_machine_core::settling::running;
use ns_machine_core::state::{Core, Next};
use ns_machine_core::storing::store_slot;
use ns_machine_core::taking::{pick, pop};
use ns_machine_frames::frame::Frame;
use ns_machine_frames::registers::Registers;
use ns_machine_plan::plan::Plan;
use ns_machine_plan::step::Step;
use ns_machine_returns::acting::act;
use ns_machine_returns::ending::{return_self, return_value};
use ns_machine_returns::homes::return_home;
use ns_machine_returns::laws::topmost_methods_can_act;
use ns_machine_returns::parts::init_super;
use ns_machine_sends::around::{send_private, send_super};
use ns_machine_sends::sends::{send, send_inner};

/// Goes on with the topmost frame.
#[inline(always)]
pub fn go_on(plan: &Plan, code: &CodeProgram, core: &mut Core, at: Registers, own: OwnSends) -> Next
    requires { RunsBy code.now plan.now own core.old (next.On at) }
    ensures { MakesMove code.now core.old (next.On at) core.new result }
{
    topmost_methods_can_act();
    match *core.stack.topmost() {
        Frame::Running(_) => run_on(plan, code, core, at, own),
        Frame::Looping(_) => act(code, core, at, own),
    }
}

/// Does the next step of a body, which runs in the topmost frame. Its code stands once, and apart from that of methods of the
/// kernel.
#[inline(never)]
pub fn run_on(
    plan: &Plan,
    code: &CodeProgram,
    core: &mut Core,
    at: Registers,
    own: OwnSends,
) -> Next
    requires runs { RunsBy code.now plan.now own core.old (next.On at) }
    requires running { IsRunning core.old.stack.frames.items }
    ensures { MakesMove code.now core.old (next.On at) core.new result }
{
    moves_keep_machines_ready();
    let frame = running(&core.stack);
    let step = fetch(plan, code, core, at, frame.activation.body);
    let behind = Registers {
        next: at.next + 1,
        ..at
    };
    perform(code, core, behind, step, own)
}

/// Does a step, behind which the registers stand.
#[inline(always)]
fn perform(code: &CodeProgram, core: &mut Core, at: Registers, step: Step, own: OwnSends) -> Next
    requires can { CanDo code.now core.old at (instr_of step) }
    requires own { AreOwn code.now core.old.places own }
    ensures { IsDone code.now (instr_of step) (place_of core.old.places step) core.old at core.new result }
{
    match step {
        Step::PushNil => Next::On(push_nil(code, core, at)),
        Step::PushTrue => Next::On(push_true(code, core, at)),
        Step::PushFalse => Next::On(push_false(code, core, at)),
        Step::PushInt(number) => Next::On(push_int(code, core, at, number)),
        Step::PushSym(sel) => Next::On(push_sym(code, core, at, sel)),
        Step::PushText(text) => push_text(code, core, at, text),
        Step::PushSelf => Next::On(push_self(code, core, at)),
        Step::PushOuter(level) => Next::On(push_outer(code, core, at, level)),
        Step::PushLocal { hops, index } => Next::On(push_local(code, core, at, hops, index)),
        Step::StoreLocal { hops, index } => Next::On(store_local(code, core, at, hops, index)),
        Step::PushBlock(block) => push_block(code, core, at, block),
        Step::MakeArray(count) => make_array(code, core, at, count),
        Step::Pop => Next::On(pop(code, core, at)),
        Step::Pick(number) => Next::On(pick(code, core, at, number)),
        Step::Send {
            sel,
            argc,
            kind,
            place,
            ..
        } => send_as(code, core, at, sel, argc, kind, place, own),
        Step::SendPrivate {
            level,
            sel,
            argc,
            place,
            ..
        } => send_private(code, core, at, level, sel, argc, place, own),
        Step::SendSuper { sel, argc, place } => send_super(code, core, at, sel, argc, place, own),
        Step::InitSuper { argc, .. } => init_super(code, core, at, argc),
        Step::StoreSlot(slot) => Next::On(store_slot(code, core, at, slot)),
        Step::Return => return_value(code, core, at, own),
        Step::ReturnSelf => return_self(code, core, at, own),
        Step::ReturnHome => return_home(code, core, at, own),
        Step::Jump(target) => jump(code, core, at, target),
        Step::JumpFalse(target) => jump_false(code, core, at, target),
        Step::JumpTrue(target) => jump_true(code, core, at, target),
    }
}

/// Sends to the operand below the arguments, from its own start or from inside.
#[inline(always)]
fn send_as(
    code: &CodeProgram,
    core: &mut Core,
    at: Registers,
    sel: Sel,
    argc: u8,
    kind: Sending,
    place: u32,
    own: OwnSends,
) -> Next
    requires can { CanDo code.now core.old at (send_instr kind sel argc) }
    requires own { AreOwn code.now core.old.places own }
    ensures { IsDone code.now (send_instr kind sel argc) (slice_get core.old.places place) core.old at core.new result }
{
    match kind {
        Sending::Plain => send(code, core, at, sel, argc, place, own),
        Sending::Inner => send_inner(code, core, at, sel, argc, place, own),
    }
}
