//! One frame as plain data.

ghost use Rattle.std.specs.Prelude.{◌≡◌, ◌+◌, length, take, IfOk};
ghost use Rattle.ns_machine_frames.specs.declared.frame.Frame.TheVariants.{Running as RunningFrameOf, Looping as LoopingFrameOf};
ghost use Rattle.ns_machine_frames.specs.View.{site_shown, leaving_shown, frame_shown};
ghost use Rattle.ns_moves.specs.Steps.{steps_from};
ghost use Rattle.ns_moves.specs.ValidFrames.{next_number};
ghost use Rattle.ns_frozen.specs.Freezing.{kind_frozen, instr_frozen, frame_frozen};
ghost use Rattle.ns_moves.specs.Fitting.{kind_of};
ghost use Rattle.ns_world.specs.Heap.{cell_number};
ghost use Rattle.ns_machine_freeze.specs.Down.{count_of, stood_one, IsLaidTo};

use ns_base::items::Items;
use ns_base::no_memory::NoMemory;
use ns_code::kinds::{BLOCK, CLAUSE};
use ns_code::program::CodeProgram;
use ns_frozen::frame::{FrameKind, FrozenFrame};
use ns_frozen::plain::plain_values;
use ns_machine_core::places::Places;
use ns_machine_core::state::Core;
use ns_machine_frames::frame::{Activation, Frame, KeptSite, Leaving, LoopingFrame, RunningFrame};
use ns_moves::running::NO_HOME;
use ns_moves::site::Site;
use ns_world::kernel::NO_CLASS;
use ns_world::value::Value;
use std::alloc::Global;

/// A frame whose values end at a place, by whether it waits.
pub fn frame_of(
    alloc: Global,
    code: &CodeProgram,
    core: &Core,
    frame: Frame,
    end: u32,
    waits: bool,
) -> Result<FrozenFrame, NoMemory>
    requires { IsLaidTo frame end (length core.now.stack.values.items) }
    ensures { IfOk result (λ frozen. frozen ≡
        frame_frozen code.now waits (frame_shown code.now core.now.places (stood_one frame (take end core.now.stack.values.items)))) }
{
    match frame {
        Frame::Running(running) => running_of(alloc, code, core, running, end, waits),
        Frame::Looping(looping) => Ok(looping_of(alloc, code, core, looping, waits)),
    }
}

/// The frame of a body.
fn running_of(
    alloc: Global,
    code: &CodeProgram,
    core: &Core,
    frame: RunningFrame,
    end: u32,
    waits: bool,
) -> Result<FrozenFrame, NoMemory>
    requires { IsLaidTo (RunningFrameOf frame) end (length core.now.stack.values.items) }
    ensures { IfOk result (λ frozen. frozen ≡ frame_frozen code.now waits
        (frame_shown code.now core.now.places (stood_one (RunningFrameOf frame) (take end core.now.stack.values.items)))) }
{
    let locals = plain_values(alloc, core.stack.between(frame.base, frame.operands))?;
    let operands = plain_values(alloc, core.stack.between(frame.operands, end))?;
    let activation = frame.activation;
    Ok(FrozenFrame {
        kind: kind(code, frame.leaving, activation),
        instr: instr(code, activation.body, frame.next, waits),
        receiver: activation.me,
        holder: activation.holder,
        home: activation.home,
        env: activation.env,
        locals,
        operands,
        site: site_of(&core.places, activation.site),
    })
}

/// The frame of a method of the kernel, which has no values.
fn looping_of(
    alloc: Global,
    code: &CodeProgram,
    core: &Core,
    frame: LoopingFrame,
    waits: bool,
) -> FrozenFrame
    ensures { result ≡ frame_frozen code.now waits
        (frame_shown code.now core.now.places (stood_one (LoopingFrameOf frame) core.now.stack.values.items)) }
{
    let _code = code;
    let _waits = waits;
    FrozenFrame {
        kind: FrameKind::Kernel {
            method: frame.method,
            state: frame.state,
        },
        instr: 0,
        receiver: frame.state.receiver,
        holder: NO_CLASS,
        home: NO_HOME,
        env: Value::Nil,
        locals: Items::from_vec(Vec::new(alloc)),
        operands: Items::from_vec(Vec::new(alloc)),
        site: site_of(&core.places, frame.site),
    }
}

/// What the frame of a body runs.
fn kind(code: &CodeProgram, leaving: Leaving, activation: Activation) -> FrameKind
    ensures { result ≡ kind_frozen code.now (leaving_shown leaving activation) activation.body }
{
    let body = activation.body;
    match leaving {
        Leaving::Method => FrameKind::Method(body),
        Leaving::Body => {
            if kind_of(code, body) == BLOCK {
                FrameKind::Block(body)
            } else {
                FrameKind::Initialiser(body)
            }
        }
        Leaving::Clause { class } => FrameKind::Clause {
            body,
            object: number_of(activation.me),
            holder: activation.holder,
            class,
        },
        Leaving::Part => FrameKind::Initialiser(body),
    }
}

/// The kind of a body.
fn kind_of(code: &CodeProgram, body: u32) -> u8
    ensures { result ≡ kind_of code.now body }
{
    match code.bodies.as_slice().get(body as usize) {
        Some(body) => body.kind,
        None => CLAUSE,
    }
}

/// The number of the cell that a value refers to, 0 where it refers to none.
fn number_of(value: Value) -> u32
    ensures { result ≡ cell_number value }
{
    match value {
        Value::Ref(at) => at,
        _ => 0,
    }
}

/// The instruction at which a frame stands: the one before its next one, where it waits.
fn instr(code: &CodeProgram, body: u32, next: u32, waits: bool) -> u32
    ensures { result ≡ instr_frozen code.now waits body (steps_from code.now body next) }
{
    let next = next_number(code, body, next);
    if waits { next.saturating_sub(1) } else { next }
}

/// The number of the next instruction, which is at most one behind the last.
#[tactic(auto, using(crate::proofs::Below::next_behind, crate::proofs::Below::next_among))]
fn next_number(code: &CodeProgram, body: u32, next: u32) -> u32
    ensures { result ≡ next_number code.now body (steps_from code.now body next) }
{
    let count = count(code, body);
    if count <= next as usize {
        return count as u32;
    }
    next
}

/// How many steps a body has.
fn count(code: &CodeProgram, body: u32) -> usize
    ensures { result ≡ count_of code.now body }
{
    match code.bodies.as_slice().get(body as usize) {
        Some(body) => body.instrs.len(),
        None => 1,
    }
}

/// The site that a kept one stands for.
pub fn site_of(places: &Places, site: KeptSite) -> Site
    ensures { result ≡ site_shown places.now site }
{
    Site {
        place: places.get(site.place),
        class: site.class,
        sel: site.sel,
    }
}
