//! Why tokens are no file.

ghost use Rattle.std.specs.Prelude.{◌≡◌};
ghost use Rattle.ns_parse_tokens.specs.declared.fault.ParseFault.TheVariants.{Memory};

use ns_base::no_memory::NoMemory;
use std::alloc::{AllocError, AllocFailed};

/// The first two have the number of the token at which they stand.
#[derive(Clone, Copy, PartialEq, Eq)]
pub enum ParseFault {
    /// This token opens a bracket while 100 are open.
    TooDeep(usize),
    /// No file goes on with this token, or ends here if there is none.
    Syntax(usize),
    /// No memory was found.
    Memory,
}

impl From<NoMemory> for ParseFault {
    ghost from_gives = { λ _ e. e ≡ Memory };

    fn from(_error: NoMemory) -> ParseFault {
        ParseFault::Memory
    }
}

impl From<AllocError> for ParseFault {
    ghost from_gives = { λ _ e. e ≡ Memory };

    fn from(_error: AllocError) -> ParseFault {
        ParseFault::Memory
    }
}

impl<T: Drop> From<AllocFailed<T>> for ParseFault {
    ghost from_gives = { λ _ e. e ≡ Memory };

    fn from(_error: AllocFailed<T>) -> ParseFault {
        ParseFault::Memory
    }
}
