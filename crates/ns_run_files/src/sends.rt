//! The sends of a program that nothing answers, and their report.

ghost use Rattle.std.specs.Prelude.{◌≡◌, ◌++◌, flat_map, map, IfOk, OnOk, string_bytes};
ghost use Rattle.ns_gen_code.specs.Code.{code_of};
ghost use Rattle.ns_gen_code.specs.Sizes.{size_fault};
ghost use Rattle.ns_resolved.specs.Classes.{meant};
ghost use Rattle.ns_run_files.specs.Programs as spec;
ghost use Rattle.ns_sends.specs.Unanswered.{unanswered as unanswered_lem};

use crate::files::name_of;
use crate::parts::sends_told;
use ns_base::no_memory::NoMemory;
use ns_base::place::Place;
use ns_base::status::Status;
use ns_base::text::Text;
use ns_code::program::CodeProgram;
use ns_json::saying::Saying;
use ns_link::compile::compile;
use ns_link::fault::LinkFault;
use ns_run_outcome::cause::size_name;
use ns_run_outcome::report::{Report, refused_size};
use ns_sends::sent::SentAt;
use ns_sends::unanswered::unanswered;
use ns_static::check::Checked;
use std::alloc::Global;

/// The report of the sends of a program that nothing answers.
pub fn on_sends(alloc: Global, names: &[String], checked: &Checked) -> Result<Report, NoMemory>
    ensures { IfOk result (λ r. r ≡ spec.of_sends (map string_bytes names.now) (code_of (meant checked.now)) (size_fault (code_of (meant checked.now)))) }
{
    match compile(alloc, checked) {
        Ok(verified) => sends_report(alloc, names, verified.code()),
        Err(LinkFault::TooLarge(kind)) => refused_size(alloc, size_name(kind)),
        Err(LinkFault::Memory) => Err(NoMemory),
    }
}

/// The report of the sends of code that nothing answers.
fn sends_report(alloc: Global, names: &[String], code: &CodeProgram) -> Result<Report, NoMemory>
    ensures { IfOk result (λ r. r ≡ spec.sends_report (map string_bytes names.now) code.now (unanswered_lem code.now)) }
{
    let sends = unanswered(alloc, code)?;
    let lines = send_lines(alloc, names, code, sends.as_slice())?;
    let status = sends_status(sends.as_slice());
    let unanswered = sends_told(alloc, names, code, sends.as_slice())?;
    let mut out = lines;
    out.extend_from_slice(b"ok\n")?;
    Ok(Report {
        out: Text::from_vec(out),
        err: Text::from_vec(Vec::new(alloc)),
        status,
        stored: None,
        said: Some(Saying::Searched { unanswered }),
    })
}

/// What the status says: whether there are sends that nothing answers.
fn sends_status(sends: &[SentAt]) -> Status
    ensures { result ≡ spec.sends_status sends.now }
{
    match sends {
        [] => Status::Done,
        [_, ..] => Status::ProgramError,
    }
}

/// The lines of sends.
fn send_lines(
    alloc: Global,
    names: &[String],
    code: &CodeProgram,
    sends: &[SentAt],
) -> Result<Vec<u8>, NoMemory>
    ensures { IfOk result (λ lines. lines.items ≡ flat_map (spec.send_line (map string_bytes names.now) code.now) sends.now) }
{
    let mut lines = Vec::new(alloc);
    'sends: for sent in sends {
        put_send(alloc, &mut lines, names, code, *sent)?;
    }
    Ok(lines)
}

/// Puts the line of a send behind others.
fn put_send(
    alloc: Global,
    lines: &mut Vec<u8>,
    names: &[String],
    code: &CodeProgram,
    sent: SentAt,
) -> Result<(), NoMemory>
    ensures { OnOk result (lines.new.items ≡ lines.old.items ++ spec.send_line (map string_bytes names.now) code.now sent) }
{
    let SentAt { place, sel } = sent;
    let front = place_front(alloc, name_of(names, place.file as usize), place)?;
    lines.extend_from_slice(front.as_bytes())?;
    lines.extend_from_slice(b"nothing answers ")?;
    lines.extend_from_slice(code.selector_text(sel))?;
    lines.extend_from_slice(b"\n")?;
    Ok(())
}

/// The front of a line on a place of a file.
fn place_front(alloc: Global, file: &str, place: Place) -> Result<String, NoMemory>
    ensures { IfOk result (λ front. string_bytes front ≡ spec.place_front file.now place) }
{
    let Place { line, col, .. } = place;
    Ok(format!(in alloc; "{file}:{line}:{col}: ")?)
}
