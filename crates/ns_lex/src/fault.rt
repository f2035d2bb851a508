//! Why a source is no list of tokens.

ghost use Rattle.std.specs.Prelude.{◌≡◌};
ghost use Rattle.ns_lex.specs.Fault as spec;
ghost use Rattle.ns_lex.specs.declared.fault.LexFault.TheVariants.{Memory};

use crate::piece::Cause;
use ns_base::no_memory::NoMemory;
use std::alloc::{AllocError, AllocFailed};

/// Each fault of a source has the offset of the byte at which it stands.
#[derive(Clone, Copy, Debug, PartialEq, Eq)]
pub enum LexFault {
    /// A byte that begins no token and no gap, or one that may not follow a number.
    BadByte(u32),
    /// A comment has no end. It begins here.
    UnclosedComment(u32),
    /// A string has no end. It begins here.
    UnclosedString(u32),
    /// A number is above the greatest. Its first digit is here.
    BigNumber(u32),
    /// No memory was found.
    Memory,
}

/// The fault of that cause at a place.
pub fn fault_at(cause: Cause, at: u32) -> LexFault
    ensures { result ≡ spec.fault_at cause at }
{
    match cause {
        Cause::BadByte => LexFault::BadByte(at),
        Cause::UnclosedComment => LexFault::UnclosedComment(at),
        Cause::UnclosedString => LexFault::UnclosedString(at),
        Cause::BigNumber => LexFault::BigNumber(at),
    }
}

impl From<NoMemory> for LexFault {
    ghost from_gives = { λ _ e. e ≡ Memory };

    fn from(_error: NoMemory) -> LexFault {
        LexFault::Memory
    }
}

impl From<AllocError> for LexFault {
    ghost from_gives = { λ _ e. e ≡ Memory };

    fn from(_error: AllocError) -> LexFault {
        LexFault::Memory
    }
}

impl<T: Drop> From<AllocFailed<T>> for LexFault {
    ghost from_gives = { λ _ e. e ≡ Memory };

    fn from(_error: AllocFailed<T>) -> LexFault {
        LexFault::Memory
    }
}
