//! Snapshots from bytes.

ghost use Rattle.std.specs.Prelude.{◌≡◌, Option, Result, Ok, Err};
ghost use Rattle.ns_code.specs.Fits.{Fits};
ghost use Rattle.ns_code.specs.declared.program.CodeProgram.{CodeProgram};
ghost use Rattle.ns_frozen.specs.declared.frozen.Frozen.{Frozen};
ghost use Rattle.ns_image.specs.Read.{half};
ghost use Rattle.ns_image.specs.Reading.{read_image};
ghost use Rattle.ns_image.specs.Reads.{ReadingAnswers};
ghost use Rattle.ns_image.specs.declared.fault.ImageFault.{ImageFault};
ghost use Rattle.ns_snapshot.specs.Reading as parts;
ghost use Rattle.ns_snapshot.specs.Snapshot as spec;
ghost use Rattle.ns_snapshot_read.specs.Reads.{SnapshotAnswers, fault_in};
ghost use Rattle.ns_verify.specs.Verify as verifier;
ghost use Rattle.ns_verify.specs.Verify.{Told};
ghost use Rattle.ns_verify.specs.declared.fault.Fault.{Fault as VerifierFault};

use crate::state::frozen;
use ns_code::program::CodeProgram;
use ns_frozen::fault::RestoreFault;
use ns_frozen::frozen::Frozen;
use ns_image::fault::{Fault, ImageFault};
use ns_image::read::input::Input;
use ns_image::read::read;
use ns_snapshot::fault::SnapFault;
use ns_snapshot::snapshot::Snapshot;
use ns_verify::fault::VerifyFault;
use ns_verify::verify::verify;
use std::alloc::Global;

/// The sound code and the plain data that bytes hold, or the first fault: of the bytes from left to right, then of the
/// image. Whether the data are those of a valid state isn't asked. Takes memory for what it has read, and never for a count.
pub fn read_data(alloc: Global, bytes: &[u8]) -> Result<Snapshot, SnapFault>
    ensures { SnapshotAnswers (spec.read_data bytes.now) result }
{
    read_marked(alloc, bytes)
}

/// The snapshot, of whose state this is the first part that can't be; none of them can't.
pub fn judged(snapshot: Snapshot, fault: Option<RestoreFault>) -> Result<Snapshot, SnapFault>
    ensures { result ≡ spec.judged snapshot fault }
{
    match fault {
        None => Ok(snapshot),
        Some(fault) => {
            drop(snapshot);
            Err(part_fault(fault))
        }
    }
}

/// The fault of a part of a state.
pub fn part_fault(fault: RestoreFault) -> SnapFault
    ensures { result ≡ spec.part_fault fault }
{
    match fault {
        RestoreFault::BadLimits => SnapFault::BadRest,
        RestoreFault::BadCell(place) => SnapFault::BadCell(place),
        RestoreFault::BadFrame(place) => SnapFault::BadFrame(place),
        RestoreFault::BadRest => SnapFault::BadRest,
    }
}

/// The fault of a field in a snapshot of so many bytes.
fn fault_in(size: usize, fault: Fault) -> SnapFault
    ensures { result ≡ fault_in size fault }
{
    match fault {
        Fault::Truncated => SnapFault::Truncated,
        Fault::Bad(left) => SnapFault::BadField(size.saturating_sub(left) as u64),
        Fault::Memory => SnapFault::Memory,
    }
}

#[tactic(auto, unfolding(ns_snapshot::specs::Reading::read_parts))]
fn read_marked(alloc: Global, bytes: &[u8]) -> Result<Snapshot, SnapFault>
    ensures { SnapshotAnswers (spec.read_data bytes.now) result }
{
    if !bytes.starts_with(b"NSPS") {
        return Err(SnapFault::NotASnapshot);
    }
    read_version(alloc, bytes.len(), &bytes[4..])
}

/// What follows the mark in a snapshot of so many bytes.
fn read_version(alloc: Global, size: usize, rest: &[u8]) -> Result<Snapshot, SnapFault>
    ensures { SnapshotAnswers (spec.of_parts (parts.versioned size (half rest.now))) result }
{
    let mut input = Input { rest };
    match input.half() {
        Err(fault) => Err(fault_in(size, fault)),
        Ok(1) => read_parts(alloc, size, input.rest),
        Ok(_) => Err(SnapFault::BadVersion),
    }
}

/// What follows the version in a snapshot of so many bytes.
#[tactic(auto, unfolding(ns_snapshot::specs::Reading::parts))]
fn read_parts(alloc: Global, size: usize, rest: &[u8]) -> Result<Snapshot, SnapFault>
    ensures { SnapshotAnswers (spec.of_parts (parts.answer size (parts.parts rest.now))) result }
{
    let mut input = Input { rest };
    let image = match input.text() {
        Ok(image) => image,
        Err(fault) => return Err(fault_in(size, fault)),
    };
    match frozen(alloc, &mut input) {
        Err(fault) => Err(fault_in(size, fault)),
        Ok(state) => ended(alloc, image, state, input.rest),
    }
}

/// The snapshot with that image and that state, where no bytes follow.
fn ended(alloc: Global, image: &[u8], state: Frozen, rest: &[u8]) -> Result<Snapshot, SnapFault>
    ensures { SnapshotAnswers (spec.of_parts (parts.whole (record { image = image.now; frozen = state }) rest.now)) result }
{
    match rest {
        [] => read_code(alloc, image, state),
        [_, ..] => {
            drop(state);
            Err(SnapFault::Trailing)
        }
    }
}

/// The snapshot with that image, which is one of version 2, and that state.
fn read_code(alloc: Global, image: &[u8], state: Frozen) -> Result<Snapshot, SnapFault>
    ensures { SnapshotAnswers (spec.of_parts (Ok (record { image = image.now; frozen = state }))) result }
{
    if !image.starts_with(b"NSPK\x00\x02") {
        drop(state);
        return Err(SnapFault::BadImage);
    }
    read_new(alloc, image, state)
}

/// The snapshot with that image and that state.
fn read_new(alloc: Global, image: &[u8], state: Frozen) -> Result<Snapshot, SnapFault>
    ensures { SnapshotAnswers (spec.of_image state (read_image image.now)) result }
{
    match read(alloc, image) {
        Ok(code) => verified(alloc, code, state),
        Err(fault) => {
            drop(state);
            Err(image_fault(fault))
        }
    }
}

/// The snapshot with that code, which is sound, and that state.
fn verified(alloc: Global, code: CodeProgram, state: Frozen) -> Result<Snapshot, SnapFault>
    requires { Fits code }
    ensures { SnapshotAnswers (spec.of_code state code (verifier.fault_of code)) result }
{
    match verify(alloc, code) {
        Ok(code) => Ok(Snapshot {
            code,
            frozen: state,
        }),
        Err(fault) => {
            drop(state);
            Err(code_fault(fault))
        }
    }
}

/// The fault of a snapshot whose image can't be read.
fn image_fault(fault: ImageFault) -> SnapFault
    ensures { (frozen : Frozen) (read : Result CodeProgram ImageFault) → ReadingAnswers read (Err fault) →
        SnapshotAnswers (spec.of_image frozen read) (Err result) }
{
    match fault {
        ImageFault::Memory => SnapFault::Memory,
        ImageFault::NotAnImage => SnapFault::BadImage,
        ImageFault::BadVersion => SnapFault::BadImage,
        ImageFault::Truncated => SnapFault::BadImage,
        ImageFault::BadField(_) => SnapFault::BadImage,
        ImageFault::Trailing => SnapFault::BadImage,
    }
}

/// The fault of a snapshot whose code isn't sound.
fn code_fault(fault: VerifyFault) -> SnapFault
    ensures { (frozen : Frozen) (code : CodeProgram) (first : Option VerifierFault) → Told first fault →
        SnapshotAnswers (spec.of_code frozen code first) (Err result) }
{
    match fault {
        VerifyFault::At { cause: _, at: _ } => SnapFault::BadImage,
        VerifyFault::Memory => SnapFault::Memory,
    }
}
