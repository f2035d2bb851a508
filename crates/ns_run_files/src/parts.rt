//! Faults of a program, and sends that nothing answers, in parts.

ghost use Rattle.std.specs.Prelude.{◌≡◌, map, IfOk, string_bytes};
ghost use Rattle.ns_run_files.specs.Programs as spec;

use crate::files::name_of;
use ns_base::items::Items;
use ns_base::no_memory::NoMemory;
use ns_base::place::Place;
use ns_base::text::Text;
use ns_code::program::CodeProgram;
use ns_json::saying::{Fault, FilePlace, Unanswered};
use ns_run_outcome::cause::static_name;
use ns_sends::sent::SentAt;
use ns_static_rules::fault::Placed;
use std::alloc::Global;

/// Faults in parts.
pub fn faults_told(
    alloc: Global,
    names: &[String],
    faults: &[Placed],
) -> Result<Items<Fault>, NoMemory>
    ensures { IfOk result (λ told. told ≡ map (spec.fault_told (map string_bytes names.now)) faults.now) }
{
    let mut told = Vec::with_capacity(alloc, faults.len())?;
    'faults: for fault in faults {
        told.push(fault_told(alloc, names, *fault)?)?;
    }
    Ok(Items::from_vec(told))
}

/// A fault in parts.
fn fault_told(alloc: Global, names: &[String], fault: Placed) -> Result<Fault, NoMemory>
    ensures { IfOk result (λ told. told ≡ spec.fault_told (map string_bytes names.now) fault) }
{
    let Placed { place, cause } = fault;
    let place = place_told(alloc, names, place)?;
    let cause = Text::of(alloc, static_name(cause).as_bytes())?;
    Ok(Fault { cause, place })
}

/// Sends that nothing answers, in parts.
pub fn sends_told(
    alloc: Global,
    names: &[String],
    code: &CodeProgram,
    sends: &[SentAt],
) -> Result<Items<Unanswered>, NoMemory>
    ensures { IfOk result (λ told. told ≡ map (spec.send_told (map string_bytes names.now) code.now) sends.now) }
{
    let mut told = Vec::with_capacity(alloc, sends.len())?;
    'sends: for sent in sends {
        told.push(send_told(alloc, names, code, *sent)?)?;
    }
    Ok(Items::from_vec(told))
}

/// A send that nothing answers, in parts.
fn send_told(
    alloc: Global,
    names: &[String],
    code: &CodeProgram,
    sent: SentAt,
) -> Result<Unanswered, NoMemory>
    ensures { IfOk result (λ told. told ≡ spec.send_told (map string_bytes names.now) code.now sent) }
{
    let SentAt { place, sel } = sent;
    let place = place_told(alloc, names, place)?;
    let selector = Text::of(alloc, code.selector_text(sel))?;
    Ok(Unanswered { selector, place })
}

/// A place by the name of its file.
fn place_told(alloc: Global, names: &[String], place: Place) -> Result<FilePlace, NoMemory>
    ensures { IfOk result (λ told. told ≡ spec.place_told (map string_bytes names.now) place) }
{
    let Place { file, line, col } = place;
    let file = Text::of(alloc, name_of(names, file as usize).as_bytes())?;
    Ok(FilePlace { file, line, col })
}
