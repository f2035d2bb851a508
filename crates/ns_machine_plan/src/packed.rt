//! Steps in eight bytes each, since code may have millions of them. What doesn't fit stands in a table.

use crate::step::Member;
use ns_base::selector::Sel;
use ns_find::found::Sending;
use ns_world::kernel_parts::{DataRow, IntRow, KMethod};

/// A step in eight bytes. An integer of more than 32 bits and a send have their number in a table. A send to a value is told apart
/// by what its selector spells, a row of Integer, a method of Boolean or a row of Array, so that the machine needs to look for none.
#[derive(Clone, Copy)]
pub enum Packed {
    PushNil,
    PushTrue,
    PushFalse,
    PushShort(i32),
    PushLong(u32),
    PushSym(Sel),
    PushText(u32),
    PushSelf,
    PushOuter(u8),
    PushLocal { hops: u8, index: u8 },
    StoreLocal { hops: u8, index: u8 },
    PushBlock(u32),
    MakeArray(u8),
    Pop,
    Pick(u8),
    Send(u32),
    SendInteger { row: IntRow, send: u32 },
    SendBoolean { method: KMethod, send: u32 },
    SendArray { row: DataRow, send: u32 },
    SendPrivate(u32),
    SendSuper(u32),
    InitSuper { argc: u8, place: u32 },
    StoreSlot(u16),
    Return,
    ReturnSelf,
    ReturnHome,
    Jump(u32),
    JumpFalse(u32),
    JumpTrue(u32),
}

const _: () = prove!(size_of::<Packed>() == 8);

/// What the step of a send to a value has beside what its selector spells.
#[derive(Clone, Copy)]
pub struct ValueSend {
    pub sel: Sel,
    pub place: u32,
    pub argc: u8,
    pub kind: Sending,
}

/// What the step of a private send has.
#[derive(Clone, Copy)]
pub struct PrivateSend {
    pub sel: Sel,
    pub place: u32,
    pub member: Member,
    pub level: u8,
    pub argc: u8,
}

/// What the step of a send to the superclass has.
#[derive(Clone, Copy)]
pub struct SuperSend {
    pub sel: Sel,
    pub place: u32,
    pub argc: u8,
}
