//! What a command does with an image.

ghost use Rattle.std.specs.Prelude.{◌≡◌, ◌∷◌, [], IfOk, map, string_bytes};
ghost use Rattle.ns_run_code.specs.Listing.{listed};
ghost use Rattle.ns_image.specs.Reading.{read_image};
ghost use Rattle.ns_image.specs.declared.fault.ImageFault.{ImageFault};
ghost use Rattle.ns_audit.specs.Image.{audited_image};
ghost use Rattle.ns_run_image.specs.Image as spec;
ghost use Rattle.ns_run_outcome.specs.Stated.{Reports};
ghost use Rattle.ns_run_words.specs.Options.{denied_by};

use crate::resume::on_resume;
use crate::task::ImageTask;
use ns_audit::image::{AuditFault, AuditTold, audit_image};
use ns_base::no_memory::NoMemory;
use ns_base::shelf::{Shelf, ShelfFault};
use ns_base::text::Text;
use ns_image::fault::ImageFault;
use ns_image_members::list::list_members;
use ns_json::saying::Saying;
use ns_run_code::listing::{ListFault, listing_of, read_code};
use ns_run_outcome::report::{Report, bad_field, refused_file, told, unsound};
use ns_run_outcome::stop::{Stop, or_stop};
use ns_run_words::options::denied_texts;
use std::alloc::Global;

/// The most bytes of an image.
pub const IMAGE_BYTES: usize = 134_217_728;

/// The report of what is done with the image of that name.
pub fn on_image<S: Shelf>(
    alloc: Global,
    task: ImageTask<'_>,
    name: &str,
    shelf: &mut S,
) -> Result<Report, Stop>
    ensures { Reports S.holds S.misses S.faults S.store_faults shelf.old shelf.new
        (name.now ∷ []) (spec.of_image (spec.work_of task.entry) (name.now ∷ [])) result }
{
    match shelf.load(alloc, name, IMAGE_BYTES as u64 + 1) {
        Err(ShelfFault::Missing) => or_stop(refused_file(alloc, name, "Missing")),
        Err(ShelfFault::Failed) => Err(Stop::ReadFault),
        Err(ShelfFault::Memory) => Err(Stop::Memory),
        Ok(bytes) => or_stop(on_bytes(alloc, task, name, bytes.as_slice())),
    }
}

/// The report of what is done with these bytes of the image of that name.
fn on_bytes(
    alloc: Global,
    task: ImageTask<'_>,
    name: &str,
    bytes: &[u8],
) -> Result<Report, NoMemory>
    ensures { IfOk result (λ r. r ≡ spec.of_short (spec.work_of task.entry) name.now bytes.now) }
{
    if IMAGE_BYTES < bytes.len() {
        return refused_file(alloc, name, "TooLong");
    }
    match task {
        ImageTask::Listing { members } => on_asked(alloc, members, name, bytes),
        ImageTask::Audit { options, class } => on_audit(alloc, options, class, name, bytes),
        ImageTask::Resume => on_resume(alloc, name, bytes),
    }
}

/// The report of the listing of an image, with the members of its classes or without.
fn on_asked(alloc: Global, members: bool, name: &str, bytes: &[u8]) -> Result<Report, NoMemory>
    ensures { IfOk result (λ r. r ≡ spec.of_listed name.now (spec.listing_asked members bytes.now)) }
{
    if members {
        on_members(alloc, name, bytes)
    } else {
        on_listing(alloc, name, bytes)
    }
}

/// The report of the listing of an image with the members of its classes.
fn on_members(alloc: Global, name: &str, bytes: &[u8]) -> Result<Report, NoMemory>
    ensures { IfOk result (λ r. r ≡ spec.of_listed name.now (spec.of_members (read_image bytes.now))) }
{
    match read_code(alloc, bytes) {
        Ok(code) => {
            let text = list_members(alloc, &code)?;
            Ok(told(alloc, Text::from_vec(text)))
        }
        Err(ListFault::Image(fault)) => refused_image(alloc, name, fault),
        Err(ListFault::Memory) => Err(NoMemory),
    }
}

/// The report of the listing of an image.
fn on_listing(alloc: Global, name: &str, bytes: &[u8]) -> Result<Report, NoMemory>
    ensures { IfOk result (λ r. r ≡ spec.of_listed name.now (listed bytes.now)) }
{
    match listing_of(alloc, bytes) {
        Ok(text) => Ok(told(alloc, Text::from_vec(text))),
        Err(ListFault::Image(fault)) => refused_image(alloc, name, fault),
        Err(ListFault::Memory) => Err(NoMemory),
    }
}

/// The report of the audit of an image.
fn on_audit(
    alloc: Global,
    options: &[String],
    class: &str,
    name: &str,
    bytes: &[u8],
) -> Result<Report, NoMemory>
    ensures { IfOk result (λ r. r ≡ spec.of_audited name.now (audited_image bytes.now (denied_by (map string_bytes options.now)) class.now)) }
{
    let denied = denied_texts(alloc, options)?;
    audited_texts(alloc, denied.as_slice(), class, name, bytes)
}

fn audited_texts(
    alloc: Global,
    denied: &[Text],
    class: &str,
    name: &str,
    bytes: &[u8],
) -> Result<Report, NoMemory>
    ensures { IfOk result (λ r. r ≡ spec.of_audited name.now (audited_image bytes.now denied.now class.now)) }
{
    match audit_image(alloc, bytes, denied, class.as_bytes()) {
        Ok(told) => Ok(audit_report(alloc, told)),
        Err(AuditFault::Image(fault)) => refused_image(alloc, name, fault),
        Err(AuditFault::Unsound { cause, at }) => unsound(alloc, name, cause, at),
        Err(AuditFault::NoClass) => refused_file(alloc, name, "NoClass"),
        Err(AuditFault::Memory) => Err(NoMemory),
    }
}

/// The report of an audit.
fn audit_report(alloc: Global, told: AuditTold) -> Report
    ensures { result ≡ spec.audit_report told.line told.status told.part }
{
    let AuditTold { line, status, part } = told;
    Report {
        out: line,
        err: Text::from_vec(Vec::new(alloc)),
        status,
        stored: None,
        said: Some(Saying::Audited { audit: part }),
    }
}

/// The report of bytes that are no image.
pub fn refused_image(alloc: Global, name: &str, fault: ImageFault) -> Result<Report, NoMemory>
    ensures { IfOk result (λ r. r ≡ spec.of_image_fault name.now fault) }
{
    match fault {
        ImageFault::NotAnImage => refused_file(alloc, name, "NotAnImage"),
        ImageFault::BadVersion => refused_file(alloc, name, "BadVersion"),
        ImageFault::Truncated => refused_file(alloc, name, "Truncated"),
        ImageFault::BadField(at) => bad_field(alloc, name, at),
        ImageFault::Trailing => refused_file(alloc, name, "Trailing"),
        ImageFault::Memory => Err(NoMemory),
    }
}
