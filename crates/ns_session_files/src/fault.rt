//! Why applications don't run.

ghost use Rattle.std.specs.Prelude.{◌≡◌};
ghost use Rattle.ns_session_files.specs.declared.fault.JointFault.TheVariants.{Memory};

use ns_base::no_memory::NoMemory;
use ns_base::place::Place;
use ns_gen_code::size::SizeKind;
use ns_load::fault::LoadCause;
use ns_static_rules::fault::StaticCause;

/// Why applications don't run: of the first that is refused, a file, a static fault, or a size.
#[derive(Drop)]
pub enum JointFault {
    /// A file could not be read.
    Unread,
    /// A file of these names was refused.
    Unloaded {
        names: Vec<String>,
        cause: LoadCause,
        file: u32,
    },
    /// A file of these names has a static fault.
    Unchecked {
        names: Vec<String>,
        place: Place,
        cause: StaticCause,
    },
    /// A size of the program passes its limit.
    TooLarge(SizeKind),
    /// No memory was found.
    Memory,
}

impl From<NoMemory> for JointFault {
    ghost from_gives = { λ _ e. e ≡ Memory };

    fn from(_error: NoMemory) -> JointFault {
        JointFault::Memory
    }
}
