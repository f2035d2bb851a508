//! Frames.

ghost use Rattle.ns_image.specs.Reads.{ReadsBytes};
ghost use Rattle.ns_snapshot.specs.Reading as spec;

use crate::field::{double, option};
use crate::value::{ValueFormat, site, value, values};
use crate::variant::kernel_method;
use ns_frozen::frame::{FrameKind, FrozenFrame};
use ns_image::fault::Fault;
use ns_image::read::format::Format;
use ns_image::read::input::Input;
use ns_kcode::state::KState;
use ns_world::value::Value;
use std::alloc::Global;

/// The state of a method of the kernel.
#[tactic(auto, unfolding(ns_snapshot::specs::Reading::kernel_state))]
fn kernel_state(alloc: Global, input: &mut Input<'_>) -> Result<KState, Fault>
    ensures { ReadsBytes (spec.kernel_state input.old.rest.now) result input.new.rest.now }
{
    let receiver = value(input)?;
    let first = value(input)?;
    let second = value(input)?;
    let size = input.long()?;
    let count = input.long()?;
    let last = option(alloc, input, &ValueFormat)?;
    Ok(KState {
        receiver,
        first,
        second,
        size,
        count,
        last,
    })
}

#[tactic(auto, unfolding(ns_snapshot::specs::Reading::clause))]
fn clause(input: &mut Input<'_>) -> Result<FrameKind, Fault>
    ensures { ReadsBytes (spec.clause input.old.rest.now) result input.new.rest.now }
{
    let body = input.word()?;
    let object = input.word()?;
    let holder = input.word()?;
    let class = input.word()?;
    Ok(FrameKind::Clause {
        body,
        object,
        holder,
        class,
    })
}

#[tactic(auto, unfolding(ns_snapshot::specs::Reading::looping))]
fn looping(alloc: Global, input: &mut Input<'_>) -> Result<FrameKind, Fault>
    ensures { ReadsBytes (spec.looping input.old.rest.now) result input.new.rest.now }
{
    let method = kernel_method(input)?;
    let state = kernel_state(alloc, input)?;
    Ok(FrameKind::Kernel { method, state })
}

/// What a frame runs.
#[tactic(auto, unfolding(ns_snapshot::specs::Fields::one_of))]
fn frame_kind(alloc: Global, input: &mut Input<'_>) -> Result<FrameKind, Fault>
    ensures { ReadsBytes (spec.frame_kind input.old.rest.now) result input.new.rest.now }
{
    let left = input.rest.len();
    match input.byte()? {
        0 => Ok(FrameKind::Method(input.word()?)),
        1 => Ok(FrameKind::Block(input.word()?)),
        2 => Ok(FrameKind::Initialiser(input.word()?)),
        3 => clause(input),
        4 => looping(alloc, input),
        5..=255 => Err(Fault::Bad(left)),
    }
}

/// How a frame is read.
pub struct FrameFormat;

impl Format for FrameFormat {
    type Value = FrozenFrame;

    ghost reader = { λ _. spec.frame };

    #[tactic(auto, unfolding(ns_snapshot::specs::Reading::frame))]
    fn read(&self, alloc: Global, input: &mut Input<'_>) -> Result<FrozenFrame, Fault> {
        let kind = frame_kind(alloc, input)?;
        let instr = input.word()?;
        let receiver = value(input)?;
        let holder = input.word()?;
        let home = double(input)?;
        frame_from(alloc, input, kind, instr, receiver, holder, home)
    }
}

/// What follows a frame's home.
#[tactic(auto, unfolding(ns_snapshot::specs::Reading::frame_from))]
fn frame_from(
    alloc: Global,
    input: &mut Input<'_>,
    kind: FrameKind,
    instr: u32,
    receiver: Value,
    holder: u32,
    home: u64,
) -> Result<FrozenFrame, Fault>
    ensures { ReadsBytes (spec.frame_from kind instr receiver holder home input.old.rest.now) result input.new.rest.now }
{
    let env = value(input)?;
    let locals = values(alloc, input)?;
    let operands = values(alloc, input)?;
    let site = site(alloc, input)?;
    Ok(FrozenFrame {
        kind,
        instr,
        receiver,
        holder,
        home,
        env,
        locals,
        operands,
        site,
    })
}
