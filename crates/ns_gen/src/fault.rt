//! Why a program gets no code.

ghost use Rattle.std.specs.Prelude.{◌≡◌};
ghost use Rattle.ns_gen.specs.declared.fault.GenFault.TheVariants.{Memory};

use ns_base::no_memory::NoMemory;
use ns_gen_code::size::SizeKind;

/// A size passes its limit, or there is no memory.
#[derive(Clone, Copy)]
pub enum GenFault {
    TooLarge(SizeKind),
    Memory,
}

impl From<NoMemory> for GenFault {
    ghost from_gives = { λ _ e. e ≡ Memory };

    fn from(_error: NoMemory) -> GenFault {
        GenFault::Memory
    }
}
