//! All frames as plain data.

ghost use Rattle.std.specs.Prelude.{◌≡◌, ◌<◌, length, Bool, true, IfOk};
ghost use Rattle.ns_machine_frames.specs.Leaving.{floor_of};
ghost use Rattle.ns_machine_frames.specs.Standing.{with_next};
ghost use Rattle.ns_machine_frames.specs.Stack.{stood, IsLaid};
ghost use Rattle.ns_machine_frames.specs.View.{frames_shown};
ghost use Rattle.ns_frozen.specs.Freezing.{frames_frozen};
ghost use Rattle.ns_machine_freeze.specs.Down.{IsDown};

use crate::frame::frame_of;
use ns_base::items::Items;
use ns_base::no_memory::NoMemory;
use ns_code::program::CodeProgram;
use ns_frozen::frame::FrozenFrame;
use ns_machine_core::state::Core;
use ns_machine_frames::frame::{Frame, RunningFrame};
use ns_machine_frames::registers::Registers;
use std::alloc::Global;

/// The frames of a run, the outermost first, by whether the topmost waits; all others do.
pub fn frames(
    alloc: Global,
    code: &CodeProgram,
    core: &Core,
    at: Registers,
    waits: bool,
) -> Result<Items<FrozenFrame>, NoMemory>
    requires { IsLaid core.now.stack at }
    ensures { IfOk result (λ frames. frames ≡ frames_frozen code.now waits (frames_shown code.now core.now.places (stood core.now.stack at))) }
{
    let count = core.stack.count();
    let mut frames = Vec::with_capacity(alloc, count as usize)?;
    'frames: for done in 0..count {
        frames.push(frame_at(alloc, code, core, at, count - 1 - done, waits)?)?;
    }
    Ok(Items::from_vec(frames))
}

/// The frame above which so many stand.
fn frame_at(
    alloc: Global,
    code: &CodeProgram,
    core: &Core,
    at: Registers,
    number: u32,
    waits: bool,
) -> Result<FrozenFrame, NoMemory>
    requires laid { IsLaid core.now.stack at }
    requires there { number < length core.now.stack.frames.items }
    ensures { IfOk result (λ frame. IsDown code.now core.now at waits number frame) }
{
    if number == 0 {
        return topmost(alloc, code, core, at, waits);
    }
    lower(alloc, code, core, at, number)
}

/// The topmost frame, whose next instruction the registers have.
fn topmost(
    alloc: Global,
    code: &CodeProgram,
    core: &Core,
    at: Registers,
    waits: bool,
) -> Result<FrozenFrame, NoMemory>
    requires laid { IsLaid core.now.stack at }
    requires there { 0 < length core.now.stack.frames.items }
    ensures { IfOk result (λ frame. IsDown code.now core.now at waits 0 frame) }
{
    let frame = with_next(at.next, *core.stack.topmost());
    frame_of(alloc, code, core, frame, at.top, waits)
}

/// A frame below others, which waits. Its values end where those of the next one above begin.
fn lower(
    alloc: Global,
    code: &CodeProgram,
    core: &Core,
    at: Registers,
    number: u32,
) -> Result<FrozenFrame, NoMemory>
    requires laid { IsLaid core.now.stack at }
    requires some { 0 < number }
    requires there { number < length core.now.stack.frames.items }
    ensures { (waits : Bool) → IfOk result (λ frame. IsDown code.now core.now at waits number frame) }
{
    let end = floor_of(core.stack.frame(number - 1));
    let frozen = frame_of(alloc, code, core, *core.stack.frame(number), end, true)?;
    Ok(frozen)
}

/// A frame with the number of its next instruction, where it is a body's.
fn with_next(next: u32, frame: Frame) -> Frame
    ensures { result ≡ with_next next frame }
{
    match frame {
        Frame::Running(running) => Frame::Running(RunningFrame { next, ..running }),
        Frame::Looping(looping) => Frame::Looping(looping),
    }
}

/// Where the values of the frames below end.
fn floor_of(frame: &Frame) -> u32
    ensures { result ≡ floor_of frame.now }
{
    match *frame {
        Frame::Running(running) => running.floor,
        Frame::Looping(looping) => looping.floor,
    }
}
