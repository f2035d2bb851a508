//! Storing what a report stores.

ghost use Rattle.std.specs.Prelude.{◌≡◌, ◌≤◌, None, IsErrOf};
ghost use Rattle.ns_base.specs.Count.{Rose};
ghost use Rattle.ns_base.specs.Shelf.{OnlyRead};
ghost use Rattle.ns_run_outcome.specs.Keep.{KeepsFile};
ghost use Rattle.ns_run_outcome.specs.Outcome.{OfFiles};

use crate::report::Report;
use ns_base::shelf::{Shelf, ShelfFault};

/// Why what is to be stored was not.
#[derive(Clone, Copy)]
pub enum Unkept {
    /// The file could not be written.
    Failed,
    /// No memory was found.
    Memory,
}

/// Stores the file of a report, if there is one.
pub fn keep<S: Shelf>(report: &Report, shelf: &mut S) -> Result<(), Unkept>
    ensures files { OfFiles (KeepsFile report.now.stored result) (S.holds shelf.old) (S.holds shelf.new) }
    ensures misses { S.misses shelf.new ≡ S.misses shelf.old }
    ensures faults { S.faults shelf.new ≡ S.faults shelf.old }
    ensures store_faults { S.store_faults shelf.old ≤ S.store_faults shelf.new }
    ensures failed { IsErrOf result Unkept.Failed → Rose (S.store_faults shelf.old) (S.store_faults shelf.new) }
    ensures only_read { report.now.stored ≡ None → OnlyRead S.holds S.misses S.faults S.store_faults shelf.old shelf.new }
{
    match &report.stored {
        None => Ok(()),
        Some(stored) => match shelf.store(stored.name.as_str(), stored.bytes.bytes()) {
            Ok(()) => Ok(()),
            Err(ShelfFault::Memory) => Err(Unkept::Memory),
            Err(ShelfFault::Failed) => Err(Unkept::Failed),
            Err(ShelfFault::Missing) => Err(Unkept::Failed),
        },
    }
}
