//! Frames, as the machine keeps them, and what waits to be done.

use ns_base::selector::Sel;
use ns_kcode::state::KState;
use ns_world::kernel::ClassName;
use ns_world::kernel_parts::KMethod;
use ns_world::value::Value;

/// The send that a frame answers: the number of its place among the machine's places, or one behind their end where it
/// has none; the class of its receiver; and its selector.
#[derive(Clone, Copy)]
pub struct KeptSite {
    pub place: u32,
    pub class: ClassName,
    pub sel: Sel,
}

/// What the end of a frame does: it answers a method's send, or the evaluation of a block or the send of a factory;
/// makes the nested class of the frame's self and holder that has that declaration; or ends a superclass part, and
/// gives nothing.
#[derive(Clone, Copy)]
pub enum Leaving {
    Method,
    Body,
    Clause { class: u32 },
    Part,
}

/// A body that runs, as far as it stays the same: self, the holder of its declaration, the body, the home to which a
/// block returns, the environment one body out or its own, and the send that it answers.
#[derive(Clone, Copy)]
pub struct Activation {
    pub me: Value,
    pub holder: u32,
    pub body: u32,
    pub home: u64,
    pub env: Value,
    pub site: KeptSite,
}

/// The frame of a body: what its end does, its activation, the number of its next instruction while it waits, where the
/// values of the frames below end, and where its locals and its operands begin.
#[derive(Clone, Copy)]
pub struct RunningFrame {
    pub leaving: Leaving,
    pub activation: Activation,
    pub next: u32,
    pub floor: u32,
    pub base: u32,
    pub operands: u32,
}

/// The frame of a method of the kernel that evaluates blocks, which has no values of its own.
#[derive(Clone, Copy)]
pub struct LoopingFrame {
    pub method: KMethod,
    pub state: KState,
    pub site: KeptSite,
    pub floor: u32,
}

/// A frame of either kind.
#[derive(Clone, Copy)]
pub enum Frame {
    Running(RunningFrame),
    Looping(LoopingFrame),
}

/// Where the frame of a body is to stand: where the values of the frames below end, where its arguments begin, how many
/// locals it has beside it, and how many operands at most.
#[derive(Clone, Copy)]
pub struct Layout {
    pub floor: u32,
    pub base: u32,
    pub locals: u32,
    pub height: u32,
}

/// What waits to be done next: nothing; a send with the arguments that the machine keeps; a send with the elements of an
/// array; the evaluation of a block with operands, from a place on; or one with the arguments that the machine keeps. The
/// frames' values end at the floor.
#[derive(Clone, Copy)]
pub enum Pending {
    Nothing,
    Sending {
        receiver: Value,
        sel: Sel,
        site: KeptSite,
        floor: u32,
    },
    Performing {
        receiver: Value,
        sel: Sel,
        array: u32,
        site: KeptSite,
        floor: u32,
    },
    Evaluating {
        block: Value,
        site: KeptSite,
        floor: u32,
        first: u32,
    },
    EvaluatingKept {
        block: Value,
        site: KeptSite,
        floor: u32,
    },
}
