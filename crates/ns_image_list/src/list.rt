//! The lines of the listing.

ghost use Rattle.std.specs.Prelude.{◌≡◌, ◌++◌, OnOk, IfOk};
ghost use Rattle.ns_image_list.specs.Listing as spec;
ghost use Rattle.ns_image_list.specs.Output.{after};

use crate::instruction::put_instruction;
use crate::output::Output;
use crate::source::Source;
use ns_base::no_memory::NoMemory;
use ns_base::text::Text;
use ns_code::body::BodyCode;
use ns_code::class::ClassCode;
use ns_code::instruction::Instr;
use ns_code::kinds::{BLOCK, INITIALISER, METHOD};
use ns_code::local_names::{LocalNames, numbered_texts};
use ns_code::program::CodeProgram;
use std::alloc::Global;

/// A line for each class, and then for each body its own line, one for each local and one for each
/// instruction. A number that names nothing is shown as a question mark. The bytes are counted first, so that room
/// for them is asked for once: a listing that finds none is refused before any of it is written.
pub fn list(alloc: Global, code: &CodeProgram) -> Result<Vec<u8>, NoMemory>
    ensures { IfOk result (λ lines. lines.items ≡ spec.listing code.now) }
{
    let source = Source::new(alloc, code)?;
    let mut counted = Output::counting(alloc);
    put_listing(&mut counted, &source)?;
    let mut lines = Output::with_room(alloc, counted.counted())?;
    put_listing(&mut lines, &source)?;
    Ok(lines.into_bytes())
}

fn put_listing(out: &mut Output, source: &Source<'_>) -> Result<(), NoMemory>
    ensures { OnOk result (out.new ≡ after out.old (spec.listing source.now)) }
{
    put_classes(out, source)?;
    put_bodies(out, source)
}

fn put_classes(out: &mut Output, source: &Source<'_>) -> Result<(), NoMemory>
    ensures { OnOk result (out.new ≡ after out.old (spec.numbered (spec.class_line source.now) 0 source.now.classes)) }
{
    'classes: for (place, class) in source.classes().iter().enumerate() {
        put_class(out, source, place, class)?;
    }
    Ok(())
}

fn put_class(
    out: &mut Output,
    source: &Source<'_>,
    place: usize,
    class: &ClassCode,
) -> Result<(), NoMemory>
    ensures { OnOk result (out.new ≡ after out.old (spec.class_line source.now place class.now)) }
{
    out.put_counted(b"class", place as u64)?;
    out.put_behind_blank(source.name(class.name))?;
    out.end_line()
}

fn put_bodies(out: &mut Output, source: &Source<'_>) -> Result<(), NoMemory>
    ensures { OnOk result (out.new ≡ after out.old (spec.numbered (spec.body_lines source.now) 0 source.now.bodies)) }
{
    'bodies: for (place, body) in source.bodies().iter().enumerate() {
        put_body(out, source, place, body)?;
    }
    Ok(())
}

fn put_body(
    out: &mut Output,
    source: &Source<'_>,
    place: usize,
    body: &BodyCode,
) -> Result<(), NoMemory>
    ensures { OnOk result (out.new ≡ after out.old (spec.body_lines source.now place body.now)) }
{
    put_body_line(out, place, body)?;
    put_local_names(out, &body.local_names)?;
    let instrs = body.instrs.to_vec(out.alloc)?;
    put_instructions(out, source, &instrs)
}

fn put_body_line(out: &mut Output, place: usize, body: &BodyCode) -> Result<(), NoMemory>
    ensures { OnOk result (out.new ≡ after out.old (spec.body_line place body.now)) }
{
    out.put_counted(b"body", place as u64)?;
    out.put(b" ")?;
    out.put(kind_shown(body.kind))?;
    put_body_numbers(out, body)
}

/// What stands in a body's line behind its kind.
fn put_body_numbers(out: &mut Output, body: &BodyCode) -> Result<(), NoMemory>
    ensures { OnOk result (out.new ≡ after out.old (spec.body_numbers body.now)) }
{
    out.put_counted(b" class", u64::from(body.class))?;
    out.put_counted(b" params", u64::from(body.params))?;
    out.put_counted(b" locals", u64::from(body.locals))?;
    out.end_line()
}

/// The word of a kind of body.
pub fn kind_shown(kind: u8) -> &'static [u8]
    ensures { result.now ≡ spec.kind_shown kind }
{
    match kind {
        METHOD => b"method".as_slice(),
        BLOCK => b"block".as_slice(),
        INITIALISER => b"init".as_slice(),
        _ => b"clause".as_slice(),
    }
}

/// Their lines, from the names that are there, or from as many as are made of numbers.
pub fn put_local_names(out: &mut Output, names: &LocalNames) -> Result<(), NoMemory>
    ensures { OnOk result (out.new ≡ after out.old (spec.numbered spec.local_line 0 names.now)) }
{
    let (given, count) = names.parts();
    if given.is_empty() {
        let made = numbered_texts(out.alloc, count)?;
        return put_locals(out, &made);
    }
    put_locals(out, given)
}

fn put_locals(out: &mut Output, names: &[Text]) -> Result<(), NoMemory>
    ensures { OnOk result (out.new ≡ after out.old (spec.numbered spec.local_line 0 names.now)) }
{
    'names: for (place, name) in names.iter().enumerate() {
        put_local(out, place, name.bytes())?;
    }
    Ok(())
}

fn put_local(out: &mut Output, place: usize, name: &[u8]) -> Result<(), NoMemory>
    ensures { OnOk result (out.new ≡ after out.old (spec.local_line place name.now)) }
{
    out.put_counted(b"  local", place as u64)?;
    out.put(b" ")?;
    out.put(name)?;
    out.end_line()
}

fn put_instructions(out: &mut Output, source: &Source<'_>, instrs: &[Instr]) -> Result<(), NoMemory>
    ensures { OnOk result (out.new ≡ after out.old (spec.numbered (spec.instr_line source.now) 0 instrs.now)) }
{
    'instrs: for (place, instr) in instrs.iter().enumerate() {
        put_instr_line(out, source, place, *instr)?;
    }
    Ok(())
}

fn put_instr_line(
    out: &mut Output,
    source: &Source<'_>,
    place: usize,
    instr: Instr,
) -> Result<(), NoMemory>
    ensures { OnOk result (out.new ≡ after out.old (spec.instr_line source.now place instr)) }
{
    out.put_counted(b" ", place as u64)?;
    out.put(b" ")?;
    put_instruction(out, source, instr)?;
    out.end_line()
}
