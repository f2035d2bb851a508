//! One frame, put on the others with its values.

ghost use Rattle.std.specs.Prelude.{◌≡◌, ◌+◌, ◌≤◌, ◌<◌, length, reverse};
ghost use Rattle.ns_moves.specs.Bodies.{height_in};
ghost use Rattle.ns_machine_frames.specs.Standing.{Runs, Loops};
ghost use Rattle.ns_machine_frames.specs.Stack.{IsLaid, IsEntered};
ghost use Rattle.ns_machine_thaw.specs.Frames.{HasFrameRoom, KeepsBody, StandLow, FrameIsPut, at_start};

use crate::values::push_values;
use ns_code::program::CodeProgram;
use ns_frozen::frame::FrozenFrame;
use ns_frozen::plain::PlainValue;
use ns_machine_core::arriving::shape_of;
use ns_machine_frames::frame::{Layout, LoopingFrame, RunningFrame};
use ns_machine_frames::laws::frames_have_room;
use ns_machine_frames::registers::Registers;
use ns_machine_frames::stack::Stack;

/// Puts the frame of a body on the others, with its locals and its operands.
#[tactic(auto, using(crate::proofs::Entered::enough, crate::proofs::Entered::laid_next, crate::proofs::Entered::operands_fit, crate::proofs::Entered::body_put))]
pub fn put_running(
    stack: &mut Stack,
    code: &CodeProgram,
    at: Registers,
    kept: RunningFrame,
    frame: &FrozenFrame,
) -> Registers
    requires keeps { KeepsBody code.now at.top frame.now kept }
    requires stand { StandLow code.now stack.old at }
    requires room { HasFrameRoom code.now stack.old }
    ensures { FrameIsPut code.now (Runs kept frame.now.locals (reverse frame.now.operands)) stack.old at stack.new result }
{
    frames_have_room();
    let height = shape_of(code, kept.activation.body).height;
    let entered = enter_on(stack, at, kept, frame.locals.as_slice(), height);
    let goes_on = Registers {
        next: kept.next,
        ..entered
    };
    push_values(stack, goes_on, frame.operands.as_slice())
}

/// Enters a body on its locals, with room for so many operands.
#[tactic(auto, using(crate::proofs::Entered::can_begin, crate::proofs::Entered::has_entered))]
fn enter_on(
    stack: &mut Stack,
    at: Registers,
    kept: RunningFrame,
    locals: &[PlainValue],
    height: u32,
) -> Registers
    requires laid { IsLaid stack.old at }
    requires frames { length stack.old.frames.items < stack.old.frames.room }
    requires floor { kept.floor ≡ at.top }
    requires base { kept.base ≡ at.top }
    requires behind { kept.operands ≡ at.top + length locals.now }
    requires enough { at.top + length locals.now + height ≤ stack.old.values.room }
    ensures { IsEntered stack.old at stack.new result (at_start kept) locals.now height }
{
    let count = locals.len() as u32;
    stack.make_room(at, count);
    let above = push_values(stack, at, locals);
    stack.enter(
        above,
        kept.leaving,
        kept.activation,
        Layout {
            floor: at.top,
            base: at.top,
            locals: count,
            height,
        },
    )
}

/// Puts the frame of a method of the kernel on the others.
#[tactic(auto, using(crate::proofs::Entered::begins_at_top, crate::proofs::Entered::looping_put))]
pub fn put_looping(
    stack: &mut Stack,
    code: &CodeProgram,
    at: Registers,
    kept: LoopingFrame,
) -> Registers
    requires floor { kept.floor ≡ at.top }
    requires stand { StandLow code.now stack.old at }
    requires room { HasFrameRoom code.now stack.old }
    ensures { FrameIsPut code.now (Loops kept) stack.old at stack.new result }
{
    let _code = code;
    stack.begin(at, kept)
}
