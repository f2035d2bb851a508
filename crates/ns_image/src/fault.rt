//! Why bytes are no image.

ghost use Rattle.std.specs.Prelude.{◌≡◌};
ghost use Rattle.ns_image.specs.declared.fault.Fault.TheVariants.{Memory};
ghost use Rattle.ns_image.specs.Fault.{fault_in};

use ns_base::no_memory::NoMemory;
use std::alloc::{AllocError, AllocFailed};

/// The first fault that is met from left to right, or `Memory`.
#[derive(Clone, Copy, PartialEq, Eq)]
pub enum ImageFault {
    /// The first four bytes aren't `NSPK`, or there are fewer.
    NotAnImage,
    /// The version is neither 1 nor 2.
    BadVersion,
    /// A field runs past the end.
    Truncated,
    /// The field that begins at this byte, counted from 0, holds what no image may hold.
    BadField(u64),
    /// Bytes follow the last body.
    Trailing,
    /// No memory was found.
    Memory,
}

/// Why a field can't be read.
#[derive(Clone, Copy)]
pub enum Fault {
    /// It runs past the end.
    Truncated,
    /// It holds what no image may hold, and so many bytes were left where it begins.
    Bad(usize),
    /// No memory was found.
    Memory,
}

impl Fault {
    /// The fault in an image of so many bytes.
    pub fn in_image(self, size: usize) -> ImageFault
        ensures { result ≡ fault_in size self }
    {
        match self {
            Fault::Truncated => ImageFault::Truncated,
            Fault::Bad(left) => ImageFault::BadField(size.saturating_sub(left) as u64),
            Fault::Memory => ImageFault::Memory,
        }
    }
}

impl From<NoMemory> for Fault {
    ghost from_gives = { λ _ e. e ≡ Memory };

    fn from(_error: NoMemory) -> Fault {
        Fault::Memory
    }
}

impl From<AllocError> for Fault {
    ghost from_gives = { λ _ e. e ≡ Memory };

    fn from(_error: AllocError) -> Fault {
        Fault::Memory
    }
}

impl<T: Drop> From<AllocFailed<T>> for Fault {
    ghost from_gives = { λ _ e. e ≡ Memory };

    fn from(_error: AllocFailed<T>) -> Fault {
        Fault::Memory
    }
}
