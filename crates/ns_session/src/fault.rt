//! Why a session refuses a call.

ghost use Rattle.std.specs.Prelude.{◌≡◌};
ghost use Rattle.ns_session.specs.declared.fault.AddFault.TheVariants.{Memory};

use ns_base::no_memory::NoMemory;
use thiserror::Error;

/// Why an application wasn't added.
#[derive(Clone, Copy, Debug, PartialEq, Eq, Drop, Error)]
pub enum AddFault {
    #[error("session is full")]
    Full,
    #[error("no memory")]
    Memory,
}

/// No application has that number.
#[derive(Clone, Copy, Debug, PartialEq, Eq, Drop, Error)]
#[error("no such application")]
pub struct NoSuch;

impl From<NoMemory> for AddFault {
    ghost from_gives = { λ _ e. e ≡ Memory };

    fn from(_error: NoMemory) -> AddFault {
        AddFault::Memory
    }
}
