//! Where what an action has reached leads to.

ghost use Rattle.std.specs.Prelude.{◌<◌, length};
ghost use Rattle.ns_world.specs.Lawful.{IsLawful, IsLiveValue};
ghost use Rattle.ns_moves.specs.declared.control.Reached.TheVariants as reached;
ghost use Rattle.ns_machine_core.specs.Arriving.{Arrives};
ghost use Rattle.ns_machine_core.specs.Doing.{IsRunning};
ghost use Rattle.ns_machine_sends.specs.Going.{control_at, IsLeft, ControlGoesOn, IsGiven, ComesToBody};
ghost use Rattle.ns_machine_sends.specs.Kept.{kept_control};

use crate::ending::{fail, refuse};
use crate::entering::{enter_kept, enter_reached};
use crate::evaluating::{wait_for, wait_for_kept};
use crate::sent::Sent;
use ns_base::selector::Sel;
use ns_code::program::CodeProgram;
use ns_kcode::state::KState;
use ns_machine_core::arriving::begin;
use ns_machine_core::settling::settle;
use ns_machine_core::state::{Core, Next};
use ns_machine_frames::frame::{KeptSite, LoopingFrame, Pending};
use ns_machine_frames::registers::Registers;
use ns_moves::control::Reached;
use ns_moves::targets::class_of;
use ns_world::kernel_parts::KMethod;
use ns_world::value::Value;

/// Brings a value to the body that runs.
#[inline(always)]
#[tactic(auto, using(crate::proofs::Arrived::value_arrives))]
pub fn answer(code: &CodeProgram, core: &mut Core, at: Registers, sent: Sent, value: Value) -> Next
    requires left { IsLeft code.now core.old at sent }
    requires runs { IsRunning core.old.stack.frames.items }
    ensures { Arrives code.now core.old at sent.floor (control_at code.now core.old at sent (reached.Gives value)) core.new result }
{
    let below = Registers {
        top: sent.floor,
        ..at
    };
    settle(code, core, below, sent.site, Ok(value))
}

/// Begins a method of the kernel.
#[inline(always)]
#[tactic(auto, using(crate::proofs::Arrived::can_begin))]
pub fn begin_method(
    code: &CodeProgram,
    core: &mut Core,
    at: Registers,
    sent: Sent,
    method: KMethod,
    state: KState,
) -> Next
    requires left { IsLeft code.now core.old at sent }
    requires room { length core.old.stack.frames.items < core.old.run.world.world.limits.depth }
    ensures { Arrives code.now core.old at sent.floor (control_at code.now core.old at sent (reached.Begins method state)) core.new result }
{
    let looping = LoopingFrame {
        method,
        state,
        site: sent.site,
        floor: sent.floor,
    };
    Next::On(begin(code, core, at, looping))
}

/// Lets a send with the elements of an array wait, at a site of its own.
#[inline(never)]
#[tactic(auto, using(crate::proofs::Arrived::send_waits))]
pub fn perform(
    code: &CodeProgram,
    core: &mut Core,
    at: Registers,
    sent: Sent,
    receiver: Value,
    sel: Sel,
    array: u32,
) -> Next
    requires left { IsLeft code.now core.old at sent }
    requires lawful { IsLawful core.old.run.world.world code.now }
    requires live { IsLiveValue core.old.run.world.world.cells code.now receiver }
    ensures { Arrives code.now core.old at sent.floor (control_at code.now core.old at sent
        (reached.Performs receiver sel array)) core.new result }
{
    let site = KeptSite {
        place: sent.site.place,
        class: class_of(&mut core.run.world, code, receiver),
        sel,
    };
    core.waiting = Pending::Performing {
        receiver,
        sel,
        array,
        site,
        floor: sent.floor,
    };
    Next::Waits(at)
}

/// Goes where an action has led.
#[inline(always)]
pub fn arrive(
    code: &CodeProgram,
    core: &mut Core,
    at: Registers,
    sent: Sent,
    reached: Reached,
) -> Next
    requires left { IsLeft code.now core.old at sent }
    requires goes { ControlGoesOn code.now (length core.old.stack.frames.items) (control_at code.now core.old at sent reached) }
    requires given { IsGiven core.old.run.world.world.cells reached }
    requires body { ComesToBody reached core.old.stack.frames.items }
    ensures { Arrives code.now core.old at sent.floor (control_at code.now core.old at sent reached) core.new result }
{
    match reached {
        Reached::Gives(value) => answer(code, core, at, sent, value),
        Reached::Fails(fault) => fail(code, core, at, sent, fault),
        Reached::Refused(sel) => refuse(code, core, at, sent, sel),
        Reached::Enters { exit, entered } => {
            Next::On(enter_reached(code, core, at, sent, exit, entered))
        }
        Reached::Evaluates { block, given } => wait_for(code, core, at, sent, block, given),
        Reached::Begins { method, state } => begin_method(code, core, at, sent, method, state),
        Reached::Performs {
            receiver,
            sel,
            array,
        } => perform(code, core, at, sent, receiver, sel, array),
    }
}

/// Goes where an action has led with the arguments that are kept.
#[inline(always)]
pub fn arrive_kept(
    code: &CodeProgram,
    core: &mut Core,
    at: Registers,
    sent: Sent,
    reached: Reached,
) -> Next
    requires left { IsLeft code.now core.old at sent }
    requires goes { ControlGoesOn code.now (length core.old.stack.frames.items) (kept_control code.now core.old sent reached) }
    requires given { IsGiven core.old.run.world.world.cells reached }
    requires body { ComesToBody reached core.old.stack.frames.items }
    ensures { Arrives code.now core.old at sent.floor (kept_control code.now core.old sent reached) core.new result }
{
    match reached {
        Reached::Gives(value) => answer(code, core, at, sent, value),
        Reached::Fails(fault) => fail(code, core, at, sent, fault),
        Reached::Refused(sel) => refuse(code, core, at, sent, sel),
        Reached::Enters { exit, entered } => {
            Next::On(enter_kept(code, core, at, sent, exit, entered))
        }
        Reached::Evaluates { block, given } => wait_for_kept(code, core, at, sent, block, given),
        Reached::Begins { method, state } => begin_method(code, core, at, sent, method, state),
        Reached::Performs {
            receiver,
            sel,
            array,
        } => perform(code, core, at, sent, receiver, sel, array),
    }
}
