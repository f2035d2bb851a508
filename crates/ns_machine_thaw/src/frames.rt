//! Frames that plain data stands for, put on one another.

ghost use Rattle.std.specs.Prelude.{◌≡◌, ◌+◌, ◌≤◌, ◌||◌, length, nat_lt};
ghost use Rattle.ns_frozen.specs.Thawing as thawing;
ghost use Rattle.ns_moves.specs.ValidFrames.{is_super_part};
ghost use Rattle.ns_machine_plan.specs.Plan.{IsPlanOf, HasStep};
ghost use Rattle.ns_machine_plan.specs.Steps.{instr_of};
ghost use Rattle.ns_machine_thaw.specs.Frames.{KindFits, FramesFit, HasFrameRoom, HasDepthRoom, KeepsFrame, StandLow, FrameIsPut, FramesArePut, stood_of};

use crate::entering::{put_looping, put_running};
use crate::kept::kept_frame;
use ns_code::program::CodeProgram;
use ns_frozen::frame::{FrameKind, FrozenFrame};
use ns_machine_frames::frame::Frame;
use ns_machine_frames::registers::Registers;
use ns_machine_frames::stack::Stack;
use ns_machine_plan::plan::Plan;
use ns_machine_plan::step::Step;

/// Puts frames in place of those that there were, by whether the topmost waits; all others do. The places of their sites
/// have numbers from a first one on.
pub fn put_frames(
    stack: &mut Stack,
    plan: &Plan,
    code: &CodeProgram,
    first: u32,
    waits: bool,
    frames: &[FrozenFrame],
) -> Registers
    requires plan { IsPlanOf code.now plan.now }
    requires fit { FramesFit code.now frames.now }
    requires room { HasDepthRoom code.now (length frames.now) stack.old }
    requires numbers { first + length frames.now ≤ 4294967295 }
    ensures { FramesArePut code.now first waits frames.now stack.old stack.new result }
{
    let mut at = stack.reset();
    let mut part = false;
    'frames: for number in 0..frames.len() {
        let frame = &frames[number];
        let waiting = is_waiting(waits, number + 1, frames.len());
        let kept = kept_frame(code, frame, first + number as u32, part, waiting, at.top);
        at = put_frame(stack, code, at, kept, frame);
        part = is_at_super(plan, code, frame);
    }
    at
}

/// Whether a frame waits on which frames stand from a number on, of so many.
fn is_waiting(waits: bool, number: usize, count: usize) -> bool
    ensures { result ≡ (waits || nat_lt number count) }
{
    if waits { true } else { number < count }
}

/// Whether a frame stands at a superclass message.
fn is_at_super(plan: &Plan, code: &CodeProgram, frame: &FrozenFrame) -> bool
    requires plan { IsPlanOf code.now plan.now }
    requires fits { KindFits code.now frame.now frame.now.kind }
    ensures { result ≡ thawing.is_at_super code.now frame.now.kind frame.now.instr }
{
    match frame.kind {
        FrameKind::Method(body) => is_super_at(plan, code, body, frame.instr),
        FrameKind::Block(body) => is_super_at(plan, code, body, frame.instr),
        FrameKind::Initialiser(body) => is_super_at(plan, code, body, frame.instr),
        FrameKind::Clause { body, .. } => is_super_at(plan, code, body, frame.instr),
        FrameKind::Kernel { .. } => false,
    }
}

/// Whether the instruction of that number of a body is a superclass message.
#[tactic(auto, using(crate::proofs::Supers::super_told))]
fn is_super_at(plan: &Plan, code: &CodeProgram, body: u32, instr: u32) -> bool
    requires plan { IsPlanOf code.now plan.now }
    requires there { HasStep code.now body instr }
    ensures { result ≡ thawing.is_super_at code.now body instr }
{
    is_super(plan.step(code, body, instr))
}

/// Whether a step is a superclass message.
fn is_super(step: Step) -> bool
    ensures { result ≡ is_super_part (instr_of step) }
{
    match step {
        Step::InitSuper { .. } => true,
        _ => false,
    }
}

/// Puts a kept frame on the others, with the locals and the operands of that which it stands for.
fn put_frame(
    stack: &mut Stack,
    code: &CodeProgram,
    at: Registers,
    kept: Frame,
    frame: &FrozenFrame,
) -> Registers
    requires keeps { KeepsFrame code.now at.top frame.now kept }
    requires stand { StandLow code.now stack.old at }
    requires room { HasFrameRoom code.now stack.old }
    ensures { FrameIsPut code.now (stood_of kept frame.now) stack.old at stack.new result }
{
    match kept {
        Frame::Running(running) => put_running(stack, code, at, running, frame),
        Frame::Looping(looping) => put_looping(stack, code, at, looping),
    }
}
