//! Why files are no program.

ghost use Rattle.std.specs.Prelude.{◌≡◌};
ghost use Rattle.ns_load.specs.declared.fault.LoadFault.TheVariants.{Memory};

use ns_base::no_memory::NoMemory;
use ns_base::place::Place;
use std::alloc::{AllocError, AllocFailed};

/// Why a file was refused.
#[derive(Clone, Copy)]
pub enum LoadCause {
    /// There is no file of that name.
    Missing,
    /// The file has more bytes than a source may have.
    TooLong,
    /// The file could not be read.
    ReadFault,
    /// The text is wrong at that place.
    Spelling { cause: SpellingCause, place: Place },
}

/// What is wrong with a text.
#[derive(Clone, Copy)]
pub enum SpellingCause {
    /// A byte that begins no token and no gap, or one that may not follow a number.
    BadByte,
    /// A comment has no end.
    UnclosedComment,
    /// A string has no end.
    UnclosedString,
    /// A number is above the greatest.
    BigNumber,
    /// A bracket stands in too many others.
    TooDeep,
    /// No file goes on so.
    Syntax,
}

/// Why there is no program.
#[derive(Clone, Copy)]
pub enum LoadFault {
    /// The file of that number was refused.
    At { cause: LoadCause, file: u32 },
    /// No memory was found.
    Memory,
}

impl From<NoMemory> for LoadFault {
    ghost from_gives = { λ _ e. e ≡ Memory };

    fn from(_error: NoMemory) -> LoadFault {
        LoadFault::Memory
    }
}

impl From<AllocError> for LoadFault {
    ghost from_gives = { λ _ e. e ≡ Memory };

    fn from(_error: AllocError) -> LoadFault {
        LoadFault::Memory
    }
}

impl<T: Drop> From<AllocFailed<T>> for LoadFault {
    ghost from_gives = { λ _ e. e ≡ Memory };

    fn from(_error: AllocFailed<T>) -> LoadFault {
        LoadFault::Memory
    }
}
