//! The layout of a file, and its report.

ghost use Rattle.std.specs.Prelude.{◌≡◌, ◌≢◌, ◌∷◌, [], ℕ, List, IfOk, IsErrOf};
ghost use Rattle.ns_format.specs.Format.{formatted};
ghost use Rattle.ns_load.specs.declared.fault.LoadFault.TheVariants.{Memory};
ghost use Rattle.ns_run_files.specs.Programs as spec;
ghost use Rattle.ns_run_files.specs.Refusal.{IsReadFault};
ghost use Rattle.ns_run_outcome.specs.Outcome.{IsEnding, IsMissing};
ghost use Rattle.ns_run_outcome.specs.Report.{told as told_lem};
ghost use Rattle.ns_run_outcome.specs.Stated.{Reports};

use crate::files::on_cause;
use ns_base::no_memory::NoMemory;
use ns_base::shelf::{Shelf, ShelfFault};
use ns_format::format::format;
use ns_load::fault::LoadFault;
use ns_load::file::SOURCE_BYTES;
use ns_load::read::read;
use ns_run_outcome::report::{Report, refused_file, told};
use ns_run_outcome::stop::{Stop, or_stop};
use std::alloc::Global;

/// The report of the layout of the file of that name.
pub fn on_format<S: Shelf>(alloc: Global, name: &str, shelf: &mut S) -> Result<Report, Stop>
    ensures { Reports S.holds S.misses S.faults S.store_faults shelf.old shelf.new
        (name.now ∷ []) (spec.of_format (name.now ∷ [])) result }
{
    match shelf.load(alloc, name, SOURCE_BYTES as u64 + 1) {
        Err(ShelfFault::Missing) => or_stop(refused_file(alloc, name, "Missing")),
        Err(ShelfFault::Failed) => Err(Stop::ReadFault),
        Err(ShelfFault::Memory) => Err(Stop::Memory),
        Ok(source) => on_source(alloc, name, source.as_slice()),
    }
}

/// The report of the layout of these bytes of the file of that name.
fn on_source(alloc: Global, name: &str, source: &[u8]) -> Result<Report, Stop>
    ensures told { IfOk result (λ r. r ≡ spec.of_source name.now source.now) }
    ensures ending { IfOk result (λ r. IsEnding r.status) }
    ensures no_read_fault { IsErrOf result Stop.ReadFault → ⊥ }
    ensures there { IfOk result (λ r. (file : List ℕ) → IsMissing file r → ⊥) }
{
    if SOURCE_BYTES < source.len() {
        return or_stop(refused_file(alloc, name, "TooLong"));
    }
    match read(alloc, 0, source) {
        Ok(read) => {
            drop(read);
            or_stop(laid_out(alloc, source))
        }
        Err(fault) => on_own_fault(alloc, name, fault),
    }
}

/// The report that tells a source with its lines laid out.
fn laid_out(alloc: Global, source: &[u8]) -> Result<Report, NoMemory>
    ensures { IfOk result (λ r. r ≡ told_lem (formatted source.now)) }
{
    let text = format(alloc, source)?;
    Ok(told(alloc, text))
}

/// The report of the refusal of one file.
fn on_own_fault(alloc: Global, name: &str, fault: LoadFault) -> Result<Report, Stop>
    ensures told { IfOk result (λ r. r ≡ spec.of_own_fault name.now fault) }
    ensures found { IfOk result (λ _. fault ≢ Memory) }
    ensures read_fault { IsErrOf result Stop.ReadFault → IsReadFault fault }
{
    match fault {
        LoadFault::At { cause, .. } => on_cause(alloc, name, cause),
        LoadFault::Memory => Err(Stop::Memory),
    }
}
