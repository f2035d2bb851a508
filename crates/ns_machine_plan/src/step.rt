//! Steps: instructions as the machine runs them.

use ns_base::selector::Sel;
use ns_find::found::Sending;
use ns_world::kernel_parts::{DataRow, IntRow, KMethod};

/// A private member of a declaration: a method by its body, the getter or the setter of a slot by the number of the
/// slot, or a nested class by its declaration; or that there is none of that name. Its holder is not known before it
/// is sent.
#[derive(Clone, Copy)]
pub enum Member {
    Method { body: u32 },
    Getter { entry: u32 },
    Setter { entry: u32 },
    Nested { class: u32 },
    Absent,
}

/// The row of the kernel that a selector spells: one of Integer, which an Integer finds, a method of Boolean, which a Boolean
/// finds, or one of Array, which an Array finds. Whether the receiver is one is not known before it is sent.
#[derive(Clone, Copy)]
pub enum SpelledRow {
    Integer(IntRow),
    Boolean(KMethod),
    Array(DataRow),
}

/// One step of a body, which is an instruction. A send and the start of a superclass part have the number of their
/// place among all places of the code, `NO_PLACE` where they have none. A private send has its member too, and a send
/// to a value the row of Integer, of Boolean or of Array that its selector spells.
#[derive(Clone, Copy)]
pub enum Step {
    PushNil,
    PushTrue,
    PushFalse,
    PushInt(i64),
    PushSym(Sel),
    PushText(u32),
    PushSelf,
    PushOuter(u8),
    PushLocal {
        hops: u8,
        index: u8,
    },
    StoreLocal {
        hops: u8,
        index: u8,
    },
    PushBlock(u32),
    MakeArray(u8),
    Pop,
    Pick(u8),
    Send {
        sel: Sel,
        argc: u8,
        kind: Sending,
        place: u32,
        row: Option<SpelledRow>,
    },
    SendPrivate {
        level: u8,
        sel: Sel,
        argc: u8,
        place: u32,
        member: Member,
    },
    SendSuper {
        sel: Sel,
        argc: u8,
        place: u32,
    },
    InitSuper {
        argc: u8,
        place: u32,
    },
    StoreSlot(u16),
    Return,
    ReturnSelf,
    ReturnHome,
    Jump(u32),
    JumpFalse(u32),
    JumpTrue(u32),
}

/// The number of no place.
pub const NO_PLACE: u32 = 4_294_967_295;
