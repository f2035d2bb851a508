//! The first part of a frozen state that can't be.

ghost use Rattle.std.specs.Prelude.{◌≡◌, IfOk};
ghost use Rattle.ns_code.specs.Fits.{Fits};
ghost use Rattle.ns_verify.specs.Verify.{IsSound};
ghost use Rattle.ns_frozen.specs.Cells.{bad_cell};
ghost use Rattle.ns_frozen.specs.Fault.{fault_in, fault_of};
ghost use Rattle.ns_frozen.specs.Thawing.{heap_thawed};
ghost use Rattle.ns_frozen_seen.specs.Seen.{IsSeen, heap_of};

use crate::among::bad_among;
use crate::first::{first_cells, wants_arguments};
use crate::frames::bad_frame;
use crate::rest::is_good_rest;
use ns_base::no_memory::NoMemory;
use ns_code::program::CodeProgram;
use ns_frozen::fault::RestoreFault;
use ns_frozen::frozen::Frozen;
use ns_frozen_fitting::fitting::seen_fitting;
use ns_frozen_seen::seen::Seen;
use std::alloc::Global;

/// The first part of a frozen state that can't be, in a run of sound code: a cell, a frame, or what stands beside these. None
/// comes exactly where the state is valid.
pub fn first_fault(
    alloc: Global,
    code: &CodeProgram,
    frozen: &Frozen,
) -> Result<Option<RestoreFault>, NoMemory>
    requires sound { IsSound code.now }
    requires fits { Fits code.now }
    ensures { IfOk result (λ fault. fault ≡ fault_of code.now frozen.now) }
{
    let seen = seen_fitting(alloc, code, &frozen.cells, frozen.frames.as_slice())?;
    let fault = fault_among(alloc, &seen, frozen)?;
    Ok(fault)
}

/// The same of cells that are seen.
#[tactic(auto, using(crate::proofs::Ended::cell_first, crate::proofs::Ended::frame_next))]
fn fault_among(
    alloc: Global,
    seen: &Seen<'_>,
    frozen: &Frozen,
) -> Result<Option<RestoreFault>, NoMemory>
    requires seen { IsSeen seen.now }
    requires these { seen.now.cells.now ≡ frozen.now.cells }
    ensures { IfOk result (λ fault. fault ≡ fault_in seen.now.code.now (heap_of seen.now) frozen.now) }
{
    if let Some(place) = bad_cell(alloc, seen, frozen)? {
        return Ok(Some(RestoreFault::BadCell(place)));
    }
    if let Some(place) = bad_frame(seen, frozen) {
        return Ok(Some(RestoreFault::BadFrame(place)));
    }
    if is_good_rest(seen, frozen) {
        Ok(None)
    } else {
        Ok(Some(RestoreFault::BadRest))
    }
}

/// The place of the first bad cell; how many there are where one is missing.
pub fn first_bad_cell(
    alloc: Global,
    code: &CodeProgram,
    frozen: &Frozen,
) -> Result<Option<u64>, NoMemory>
    requires sound { IsSound code.now }
    requires fits { Fits code.now }
    ensures { IfOk result (λ place. place ≡ bad_cell code.now (heap_thawed code.now frozen.now.cells) frozen.now) }
{
    let seen = seen_fitting(alloc, code, &frozen.cells, frozen.frames.as_slice())?;
    let place = bad_cell(alloc, &seen, frozen)?;
    Ok(place)
}

/// The same of cells that are seen.
fn bad_cell(alloc: Global, seen: &Seen<'_>, frozen: &Frozen) -> Result<Option<u64>, NoMemory>
    requires seen { IsSeen seen.now }
    requires these { seen.now.cells.now ≡ frozen.now.cells }
    ensures { IfOk result (λ place. place ≡ bad_cell seen.now.code.now (heap_of seen.now) frozen.now) }
{
    let first = first_cells(alloc, seen.code, frozen)?;
    let place = bad_among(
        seen,
        frozen.homes,
        first.as_slice(),
        wants_arguments(frozen.phase, frozen.ending),
    );
    Ok(place)
}
