//! Why a command has no report.

ghost use Rattle.std.specs.Prelude.{◌≡◌, Ok, Err, MatchResult};

use crate::report::Report;
use ns_base::no_memory::NoMemory;

/// Why there is no report.
#[derive(Clone, Copy)]
pub enum Stop {
    /// A file could not be read.
    ReadFault,
    /// No memory was found.
    Memory,
}

/// Want of memory stops the work.
pub fn or_stop(made: Result<Report, NoMemory>) -> Result<Report, Stop>
    ensures { MatchResult made (λ r. result ≡ Ok r) (λ _. result ≡ Err Stop.Memory) }
{
    match made {
        Ok(report) => Ok(report),
        Err(NoMemory) => Err(Stop::Memory),
    }
}
