//! What is wrong with code, and where.

/// What is wrong. Of several at one place, the one that stands first here is answered.
#[derive(Clone, Copy, PartialEq, Eq)]
pub enum VerifyCause {
    /// A jump's target isn't there.
    BadJump,
    /// An instruction misses operands, or heights don't agree.
    BadHeight,
    /// A slot or a local isn't there.
    BadSlot,
    /// What is named isn't there, is of another kind, or stands where it can't be used.
    BadScope,
    /// A name or a text isn't there, or isn't one for this use.
    BadLiteral,
    /// The last instruction runs on.
    NoReturn,
}

/// Where it is: at a class, or at an instruction of a body, each by its number.
#[derive(Clone, Copy, PartialEq, Eq)]
pub enum Where {
    Class(u32),
    Body(u32, u32),
}

/// A cause at its place.
#[derive(Clone, Copy, PartialEq, Eq)]
pub struct Fault {
    pub cause: VerifyCause,
    pub at: Where,
}

/// Why code isn't admitted: its first fault, or want of memory.
#[derive(Clone, Copy, PartialEq, Eq)]
pub enum VerifyFault {
    At { cause: VerifyCause, at: Where },
    Memory,
}
