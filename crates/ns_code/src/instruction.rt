//! The instructions of the machine.

use ns_base::selector::Sel;

/// One instruction. A level counts enclosing classes outwards from the code's own, hops count
/// bodies outwards from the running one, and `argc` is the number of arguments.
#[derive(Clone, Copy)]
pub enum Instr {
    PushNil,
    PushTrue,
    PushFalse,
    PushInt(i64),
    PushSym(Sel),
    PushText(u32),
    PushSelf,
    PushOuter(u8),
    PushLocal { hops: u8, index: u8 },
    StoreLocal { hops: u8, index: u8 },
    PushBlock(u32),
    MakeArray(u8),
    Pop,
    Pick(u8),
    Send { sel: Sel, argc: u8 },
    SendInner { sel: Sel, argc: u8 },
    SendPrivate { level: u8, sel: Sel, argc: u8 },
    SendSuper { sel: Sel, argc: u8 },
    InitSuper(u8),
    StoreSlot(u16),
    Return,
    ReturnSelf,
    ReturnHome,
    Jump(u32),
    JumpFalse(u32),
    JumpTrue(u32),
}
