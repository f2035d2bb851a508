//! The run that goes on from a snapshot, to the report.

ghost use Rattle.std.specs.Prelude.{◌≡◌, IfOk};
ghost use Rattle.ns_run_image.specs.Image as spec;
ghost use Rattle.ns_run_snap.specs.Resumed.{resumed};

use ns_base::limits::Limits;
use ns_base::no_memory::NoMemory;
use ns_run_outcome::report::{Report, bad_field, refused_file};
use ns_run_outcome::run::{Telling, run_report};
use ns_run_snap::resume::{ResumeFault, resume};
use ns_snapshot::fault::SnapFault;
use std::alloc::Global;

/// What is told of a run that goes on: its line alone.
const PLAIN: Telling = Telling {
    classes: None,
    stats: false,
    trace: false,
    truth: false,
    json: false,
};

/// The report of the run that goes on from the snapshot of that name.
pub fn on_resume(alloc: Global, name: &str, bytes: &[u8]) -> Result<Report, NoMemory>
    ensures { IfOk result (λ r. r ≡ spec.of_resumed name.now (resumed bytes.now)) }
{
    match resume(alloc, bytes) {
        Ok(ran) => run_report(alloc, PLAIN, Limits::DEFAULT, ran, &[], None, None),
        Err(ResumeFault::Snapshot(fault)) => refused_snap(alloc, name, fault),
        Err(ResumeFault::Memory) => Err(NoMemory),
    }
}

/// The report of bytes that are no snapshot.
fn refused_snap(alloc: Global, name: &str, fault: SnapFault) -> Result<Report, NoMemory>
    ensures { IfOk result (λ r. r ≡ spec.of_snap_fault name.now fault) }
{
    match fault {
        SnapFault::NotASnapshot => refused_file(alloc, name, "NotASnapshot"),
        SnapFault::BadVersion => refused_file(alloc, name, "BadVersion"),
        SnapFault::Truncated => refused_file(alloc, name, "Truncated"),
        SnapFault::BadField(at) => bad_field(alloc, name, at),
        SnapFault::Trailing => refused_file(alloc, name, "Trailing"),
        SnapFault::BadImage => refused_file(alloc, name, "BadImage"),
        SnapFault::BadCell(k) => refused_part(alloc, name, "BadCell", k),
        SnapFault::BadFrame(k) => refused_part(alloc, name, "BadFrame", k),
        SnapFault::BadRest => refused_file(alloc, name, "BadRest"),
        SnapFault::Memory => Err(NoMemory),
    }
}

/// The report of a snapshot of which a part can't be, by its number.
fn refused_part(alloc: Global, name: &str, cause: &str, k: u64) -> Result<Report, NoMemory>
    ensures { IfOk result (λ r. r ≡ spec.of_part name.now cause.now k) }
{
    let why = format!(in alloc; "{cause} {k}")?;
    let report = refused_file(alloc, name, why.as_str())?;
    Ok(report)
}
