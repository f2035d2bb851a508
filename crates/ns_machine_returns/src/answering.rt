//! Ends of bodies whose value goes to the frame below, by the quick way: registers alone come back.

ghost use Rattle.std.specs.Prelude.{◌≡◌, ◌<◌, Option, length, true};
ghost use Rattle.ns_base.specs.declared.place.Place.{Place as SourcePlace};
ghost use Rattle.ns_code.specs.declared.instruction.Instr.TheVariants as instr;
ghost use Rattle.ns_world.specs.Lawful.{IsLiveValue};
ghost use Rattle.ns_machine_frames.specs.declared.frame.Leaving.TheVariants.{Body};
ghost use Rattle.ns_machine_frames.specs.Standing.{below};
ghost use Rattle.ns_machine_frames.specs.Stack.{stood};
ghost use Rattle.ns_machine_core.specs.declared.state.Next.TheVariants as next;
ghost use Rattle.ns_machine_core.specs.Doing.{CanDo};
ghost use Rattle.ns_machine_core.specs.Framed.{AreFramed, HasRoomOnTop};
ghost use Rattle.ns_machine_core.specs.Shown.{progress_in};
ghost use Rattle.ns_machine_core.specs.Standing.{KeepsRightIn};
ghost use Rattle.ns_machine_core.specs.Tried.{LeadsOrChangesNothing};
ghost use Rattle.ns_machine_returns.specs.Answering as spec;
ghost use Rattle.ns_machine_returns.specs.Answering.{EndLeads, HandsOn, IsHandedThrough};
ghost use Rattle.ns_machine_returns.specs.Ending.{CanEnd, FrameIsAnswered};
ghost use Rattle.ns_machine_returns.specs.Handing.{CanTake, IsHanded};

use ns_code::program::CodeProgram;
use ns_machine_core::led::Led;
use ns_machine_core::settling::running;
use ns_machine_core::state::Core;
use ns_machine_frames::frame::{Frame, Leaving, RunningFrame};
use ns_machine_frames::laws::values_are_delivered;
use ns_machine_frames::registers::Registers;
use ns_machine_frames::stack::Stack;
use ns_moves::bodies::part_ended;
use ns_world::kernel_parts::KMethod;
use ns_world::lawful::charging_keeps_lawful;
use ns_world::value::Value;

/// Returns the topmost operand.
#[inline(always)]
pub fn return_value(code: &CodeProgram, core: &mut Core, at: Registers) -> Led
    requires { CanDo code.now core.old at instr.Return }
    ensures { (place : Option SourcePlace) → LeadsOrChangesNothing code.now instr.Return place core.old at core.new result }
{
    let frame = running(&core.stack);
    let (value, below) = core.stack.pop(at);
    match end_body(code, core, below, frame, value) {
        Led::On(to) => Led::On(to),
        Led::Answered(to) => Led::Answered(to),
        Led::Nowhere => Led::Nowhere,
        Led::Straight(_) | Led::Charged(_) => unreachable!(),
    }
}

/// Returns self.
#[inline(always)]
pub fn return_self(code: &CodeProgram, core: &mut Core, at: Registers) -> Led
    requires { CanDo code.now core.old at instr.ReturnSelf }
    ensures { (place : Option SourcePlace) → LeadsOrChangesNothing code.now instr.ReturnSelf place core.old at core.new result }
{
    let frame = running(&core.stack);
    match end_body(code, core, at, frame, frame.activation.me) {
        Led::On(to) => Led::On(to),
        Led::Answered(to) => Led::Answered(to),
        Led::Nowhere => Led::Nowhere,
        Led::Straight(_) | Led::Charged(_) => unreachable!(),
    }
}

/// Ends the frame of a method or of a block with a value, where another stands below it.
#[inline(always)]
#[tactic(auto, using(crate::proofs::Ended::method_room, crate::proofs::Ended::method_ended, crate::proofs::Unended::unended))]
fn end_body(
    code: &CodeProgram,
    core: &mut Core,
    at: Registers,
    frame: RunningFrame,
    value: Value,
) -> Led
    requires { CanEnd code.now core.old at frame value }
    ensures { EndLeads code.now core.old at frame value core.new result }
{
    if core.stack.count() < 2 {
        return Led::Nowhere;
    }
    match frame.leaving {
        Leaving::Method => Led::On(answer(code, core, at, frame, value)),
        Leaving::Body => end_block(code, core, at, frame, value),
        Leaving::Clause { .. } | Leaving::Part => Led::Nowhere,
    }
}

/// Gives the frame of a block back, whose value goes to the frame below, or through it.
#[inline(always)]
#[tactic(auto, using(crate::proofs::Ended::body_room))]
fn end_block(
    code: &CodeProgram,
    core: &mut Core,
    at: Registers,
    frame: RunningFrame,
    value: Value,
) -> Led
    requires can { CanEnd code.now core.old at frame value }
    requires body { frame.leaving ≡ Body }
    requires some { 1 < length core.old.stack.frames.items }
    ensures { EndLeads code.now core.old at frame value core.new result }
{
    charging_keeps_lawful();
    let _frame = frame;
    part_ended(&mut core.run.world);
    let here = core.stack.leave(at);
    match hand_on(code, core, here, value) {
        Led::On(to) => Led::On(to),
        Led::Answered(to) => Led::Answered(to),
        Led::Straight(_) | Led::Charged(_) | Led::Nowhere => unreachable!(),
    }
}

/// Brings the value of a block to the frame on top; or where that is one of a method of the kernel which answers that value, ends
/// it too, and brings the value to the frame below.
#[inline(always)]
fn hand_on(code: &CodeProgram, core: &mut Core, at: Registers, value: Value) -> Led
    requires can { CanTake code.now core.old at }
    requires framed { AreFramed code.now (stood core.old.stack at) (progress_in core.old) }
    requires live { IsLiveValue core.old.run.world.world.cells code.now value }
    requires some { 0 < length core.old.stack.frames.items }
    requires kept { KeepsRightIn code.now core.old core.old }
    ensures { HandsOn code.now core.old at value core.new result }
{
    if !passes_on(&core.stack) {
        return Led::On(hand(code, core, at, value));
    }
    if core.stack.count() < 2 {
        return Led::On(hand(code, core, at, value));
    }
    Led::Answered(hand_through(code, core, at, value))
}

/// Whether the frame on top is one of a method of the kernel that answers what the block answers which it evaluated.
#[inline(always)]
fn passes_on(stack: &Stack) -> bool
    requires { 0 < length stack.now.frames.items }
    ensures { result ≡ spec.passes_on stack.now.frames.items }
{
    match *stack.topmost() {
        Frame::Looping(looping) => answers_block(looping.method, looping.state.receiver),
        Frame::Running(_) => false,
    }
}

/// Whether a method answers what its block answers. The receiver is asked first, which no loop has: so those take another way soon.
#[inline(always)]
fn answers_block(method: KMethod, receiver: Value) -> bool
    ensures { result ≡ spec.answers_block method receiver }
{
    match receiver {
        Value::True => answers_for_true(method),
        Value::False => answers_for_false(method),
        _ => false,
    }
}

/// Whether a method that evaluates its block for true answers what that does.
#[inline(always)]
fn answers_for_true(method: KMethod) -> bool
    ensures { result ≡ spec.answers_for_true method }
{
    match method {
        KMethod::And => true,
        KMethod::IfTrue => true,
        KMethod::IfTrueIfFalse => true,
        KMethod::IfFalseIfTrue => true,
        _ => false,
    }
}

/// The same of one that evaluates it for false.
#[inline(always)]
fn answers_for_false(method: KMethod) -> bool
    ensures { result ≡ spec.answers_for_false method }
{
    match method {
        KMethod::Or => true,
        KMethod::IfFalse => true,
        KMethod::IfTrueIfFalse => true,
        KMethod::IfFalseIfTrue => true,
        _ => false,
    }
}

/// Ends the method of the kernel on top with the value of its block, which goes to the frame below: two moves.
#[inline(always)]
fn hand_through(code: &CodeProgram, core: &mut Core, at: Registers, value: Value) -> Registers
    requires can { CanTake code.now core.old at }
    requires framed { AreFramed code.now (stood core.old.stack at) (progress_in core.old) }
    requires live { IsLiveValue core.old.run.world.world.cells code.now value }
    requires some { 1 < length core.old.stack.frames.items }
    requires kept { KeepsRightIn code.now core.old core.old }
    requires passes { spec.passes_on core.old.stack.frames.items ≡ true }
    ensures { IsHandedThrough code.now core.old at value core.new (next.On result) }
{
    charging_keeps_lawful();
    part_ended(&mut core.run.world);
    let here = core.stack.leave(at);
    hand(code, core, here, value)
}

/// Gives the frame of a body back, whose value goes to the frame below.
#[inline(always)]
fn answer(
    code: &CodeProgram,
    core: &mut Core,
    at: Registers,
    frame: RunningFrame,
    value: Value,
) -> Registers
    requires can { CanEnd code.now core.old at frame value }
    requires room { HasRoomOnTop code.now (below (stood core.old.stack at)) }
    requires some { 1 < length core.old.stack.frames.items }
    ensures { FrameIsAnswered code.now core.old at value core.new (next.On result) }
{
    charging_keeps_lawful();
    let _frame = frame;
    part_ended(&mut core.run.world);
    let here = core.stack.leave(at);
    hand(code, core, here, value)
}

/// Brings a value to the frame on top.
#[inline(always)]
#[tactic(auto, using(crate::proofs::Handed::has_place))]
pub fn hand(code: &CodeProgram, core: &mut Core, at: Registers, value: Value) -> Registers
    requires can { CanTake code.now core.old at }
    requires live { IsLiveValue core.old.run.world.world.cells code.now value }
    requires some { 0 < length core.old.stack.frames.items }
    ensures { IsHanded code.now core.old at value core.new (next.On result) }
{
    values_are_delivered();
    let _code = code;
    core.stack.deliver(at, value)
}
