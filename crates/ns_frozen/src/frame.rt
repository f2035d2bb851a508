//! Frames as plain data.

use crate::plain::PlainValue;
use ns_base::items::Items;
use ns_kcode::state::KState;
use ns_moves::site::Site;
use ns_world::kernel_parts::KMethod;
use ns_world::value::Value;

/// What a frame runs: a body of this kind, by its number, where a clause names the object, the holder and the
/// declaration of the class that it makes; or a method of the kernel that evaluates blocks.
#[derive(Clone, Copy)]
pub enum FrameKind {
    Method(u32),
    Block(u32),
    Initialiser(u32),
    Clause {
        body: u32,
        object: u32,
        holder: u32,
        class: u32,
    },
    Kernel {
        method: KMethod,
        state: KState,
    },
}

/// A frame. `instr` is the instruction that waits, where a frame stands above it or something is pending, and else the
/// next one. The operands stand with the deepest first.
#[derive(Drop)]
pub struct FrozenFrame {
    pub kind: FrameKind,
    pub instr: u32,
    pub receiver: Value,
    pub holder: u32,
    pub home: u64,
    pub env: Value,
    pub locals: Items<PlainValue>,
    pub operands: Items<PlainValue>,
    pub site: Site,
}
