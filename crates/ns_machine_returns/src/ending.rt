//! Instructions that end the body that runs.

ghost use Rattle.std.specs.Prelude.{◌≡◌, Option};
ghost use Rattle.ns_base.specs.declared.place.Place.{Place as SourcePlace};
ghost use Rattle.ns_code.specs.declared.instruction.Instr.TheVariants as instr;
ghost use Rattle.ns_machine_frames.specs.declared.frame.Leaving.TheVariants as leaving;
ghost use Rattle.ns_machine_frames.specs.Standing.{below};
ghost use Rattle.ns_machine_frames.specs.Stack.{stood};
ghost use Rattle.ns_machine_core.specs.Doing.{CanDo, IsDone};
ghost use Rattle.ns_machine_core.specs.Framed.{HasRoomOnTop};
ghost use Rattle.ns_machine_core.specs.Own.{AreOwn};
ghost use Rattle.ns_machine_returns.specs.Ending.{CanEnd, IsEnded, FrameIsAnswered};

use crate::handing::{bring, hand};
use ns_code::program::CodeProgram;
use ns_machine_core::own::OwnSends;
use ns_machine_core::settling::{running, running_code};
use ns_machine_core::state::{Core, Next};
use ns_machine_frames::frame::{Leaving, RunningFrame};
use ns_machine_frames::registers::Registers;
use ns_moves::bodies::part_ended;
use ns_moves::classes::body_ended;
use ns_moves::control::Exit;
use ns_moves::laws::actions_keep_lawful;
use ns_world::lawful::charging_keeps_lawful;
use ns_world::value::Value;

/// Returns the topmost operand.
#[inline(always)]
pub fn return_value(code: &CodeProgram, core: &mut Core, at: Registers, own: OwnSends) -> Next
    requires can { CanDo code.now core.old at instr.Return }
    requires own { AreOwn code.now core.old.places own }
    ensures { (place : Option SourcePlace) → IsDone code.now instr.Return place core.old at core.new result }
{
    let frame = running(&core.stack);
    let (value, below) = core.stack.pop(at);
    end_body(code, core, below, own, frame, value)
}

/// Returns self.
#[inline(always)]
pub fn return_self(code: &CodeProgram, core: &mut Core, at: Registers, own: OwnSends) -> Next
    requires can { CanDo code.now core.old at instr.ReturnSelf }
    requires own { AreOwn code.now core.old.places own }
    ensures { (place : Option SourcePlace) → IsDone code.now instr.ReturnSelf place core.old at core.new result }
{
    let frame = running(&core.stack);
    end_body(code, core, at, own, frame, frame.activation.me)
}

/// Ends the frame of a body with a value.
#[inline(always)]
#[tactic(auto, using(crate::proofs::Ended::method_room, crate::proofs::Ended::body_room, crate::proofs::Ended::method_ended, crate::proofs::Ended::body_ended_so))]
pub fn end_body(
    code: &CodeProgram,
    core: &mut Core,
    at: Registers,
    own: OwnSends,
    frame: RunningFrame,
    value: Value,
) -> Next
    requires can { CanEnd code.now core.old at frame value }
    requires own { AreOwn code.now core.old.places own }
    ensures { IsEnded code.now core.old at frame value core.new result }
{
    match frame.leaving {
        Leaving::Method => answer(code, core, at, own, frame, value),
        Leaving::Body => answer(code, core, at, own, frame, value),
        Leaving::Clause { class } => end_clause(code, core, at, own, frame, class, value),
        Leaving::Part => end_part(code, core, at, frame, value),
    }
}

/// Gives the frame of a body back, whose value goes to what stands below.
#[inline(always)]
fn answer(
    code: &CodeProgram,
    core: &mut Core,
    at: Registers,
    own: OwnSends,
    frame: RunningFrame,
    value: Value,
) -> Next
    requires can { CanEnd code.now core.old at frame value }
    requires room { HasRoomOnTop code.now (below (stood core.old.stack at)) }
    requires own { AreOwn code.now core.old.places own }
    ensures { FrameIsAnswered code.now core.old at value core.new result }
{
    charging_keeps_lawful();
    let _frame = frame;
    part_ended(&mut core.run.world);
    let here = core.stack.leave(at);
    hand(code, core, here, own, value)
}

/// Ends the frame of a clause's head, whose value is the superclass of the nested class that is made now.
fn end_clause(
    code: &CodeProgram,
    core: &mut Core,
    at: Registers,
    own: OwnSends,
    frame: RunningFrame,
    class: u32,
    value: Value,
) -> Next
    requires can { CanEnd code.now core.old at frame value }
    requires clause { frame.leaving ≡ leaving.Clause class }
    requires own { AreOwn code.now core.old.places own }
    ensures { IsEnded code.now core.old at frame value core.new result }
{
    actions_keep_lawful();
    let answer = body_ended(
        &mut core.run.world,
        code,
        Exit::Clause { class },
        running_code(frame.activation),
        value,
    );
    let here = core.stack.leave(at);
    bring(code, core, here, own, frame.activation.site, answer)
}

/// Ends the frame of a superclass part, whose value goes nowhere.
#[inline(always)]
fn end_part(
    code: &CodeProgram,
    core: &mut Core,
    at: Registers,
    frame: RunningFrame,
    value: Value,
) -> Next
    requires can { CanEnd code.now core.old at frame value }
    requires part { frame.leaving ≡ leaving.Part }
    ensures { IsEnded code.now core.old at frame value core.new result }
{
    let _code = code;
    let _frame = frame;
    let _value = value;
    part_ended(&mut core.run.world);
    Next::On(core.stack.leave(at))
}
