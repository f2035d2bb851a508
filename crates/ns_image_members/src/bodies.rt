//! The lines of bodies, with their owners and the places of their sends.

ghost use Rattle.std.specs.Prelude.{◌≡◌, ◌++◌, ◌∷◌, OnOk, codes, decimal, slice_get};
ghost use Rattle.std.specs.Option.{option_map_or};
ghost use Rattle.ns_image_list.specs.Output.{after};
ghost use Rattle.ns_image_list.specs.Listing.{numbered};
ghost use Rattle.ns_image_members.specs.Members as spec;

use crate::firsts::Firsts;
use crate::named::name_at;
use ns_base::no_memory::NoMemory;
use ns_base::place::Place;
use ns_base::selector::Sel;
use ns_code::body::BodyCode;
use ns_code::instruction::Instr;
use ns_image_list::instruction::put_instruction;
use ns_image_list::list::{kind_shown, put_local_names};
use ns_image_list::output::Output;
use ns_image_list::source::Source;

pub fn put_bodies(
    out: &mut Output,
    source: &Source<'_>,
    names: &[Option<Sel>],
) -> Result<(), NoMemory>
    ensures { OnOk result (out.new ≡ after out.old (numbered (spec.body_lines source.now names.now) 0 source.now.bodies)) }
{
    'bodies: for (place, body) in source.bodies().iter().enumerate() {
        put_body(out, source, names, place, body)?;
    }
    Ok(())
}

fn put_body(
    out: &mut Output,
    source: &Source<'_>,
    names: &[Option<Sel>],
    place: usize,
    body: &BodyCode,
) -> Result<(), NoMemory>
    ensures { OnOk result (out.new ≡ after out.old (spec.body_lines source.now names.now place body.now)) }
{
    put_body_line(out, source, name_at(names, place), place, body)?;
    put_local_names(out, &body.local_names)?;
    put_code(out, source, body)
}

fn put_body_line(
    out: &mut Output,
    source: &Source<'_>,
    owner: Option<Sel>,
    place: usize,
    body: &BodyCode,
) -> Result<(), NoMemory>
    ensures { OnOk result (out.new ≡ after out.old (spec.body_line source.now owner place body.now)) }
{
    out.put_counted(b"body", place as u64)?;
    out.put(b" ")?;
    out.put(kind_shown(body.kind))?;
    put_body_numbers(out, body)?;
    put_owner(out, source, owner)?;
    put_place(out, source, first_place(body.places.as_slice()))?;
    out.end_line()
}

fn put_body_numbers(out: &mut Output, body: &BodyCode) -> Result<(), NoMemory>
    ensures { OnOk result (out.new ≡ after out.old (spec.body_numbers body.now)) }
{
    out.put_counted(b" class", u64::from(body.class))?;
    out.put_counted(b" params", u64::from(body.params))?;
    out.put_counted(b" locals", u64::from(body.locals))
}

fn put_owner(out: &mut Output, source: &Source<'_>, owner: Option<Sel>) -> Result<(), NoMemory>
    ensures { OnOk result (out.new ≡ after out.old (spec.owner_shown source.now owner)) }
{
    match owner {
        None => Ok(()),
        Some(sel) => put_of(out, source.name(sel)),
    }
}

fn put_of(out: &mut Output, name: &[u8]) -> Result<(), NoMemory>
    ensures { OnOk result (out.new ≡ after out.old (codes " of" ++ 32 ∷ name.now)) }
{
    out.put(b" of")?;
    out.put_behind_blank(name)
}

fn first_place(places: &[(u32, Place)]) -> Option<Place>
    ensures { result ≡ spec.first_place places.now }
{
    match places {
        [] => None,
        [first, ..] => Some(first.1),
    }
}

/// The lines of the instructions.
fn put_code(out: &mut Output, source: &Source<'_>, body: &BodyCode) -> Result<(), NoMemory>
    ensures { OnOk result (out.new ≡ after out.old (numbered (spec.instr_line source.now body.now.places) 0 body.now.instrs)) }
{
    let instrs = body.instrs.to_vec(out.alloc())?;
    let places = Firsts::of(out.alloc(), body.places.as_slice(), instrs.len())?;
    put_instructions(out, source, &places, &instrs)
}

fn put_instructions(
    out: &mut Output,
    source: &Source<'_>,
    places: &Firsts<'_, Place>,
    instrs: &[Instr],
) -> Result<(), NoMemory>
    ensures { OnOk result (out.new ≡ after out.old (numbered (spec.instr_line source.now places.now) 0 instrs.now)) }
{
    'instrs: for (at, instr) in instrs.iter().enumerate() {
        put_instr_line(out, source, places, at, *instr)?;
    }
    Ok(())
}

fn put_instr_line(
    out: &mut Output,
    source: &Source<'_>,
    places: &Firsts<'_, Place>,
    at: usize,
    instr: Instr,
) -> Result<(), NoMemory>
    ensures { OnOk result (out.new ≡ after out.old (spec.instr_line source.now places.now at instr)) }
{
    out.put_counted(b" ", at as u64)?;
    out.put(b" ")?;
    put_instruction(out, source, instr)?;
    put_place(out, source, places.first(at))?;
    out.end_line()
}

fn put_place(out: &mut Output, source: &Source<'_>, place: Option<Place>) -> Result<(), NoMemory>
    ensures { OnOk result (out.new ≡ after out.old (spec.place_shown source.now place)) }
{
    match place {
        None => Ok(()),
        Some(place) => put_place_there(out, source, place),
    }
}

fn put_place_there(out: &mut Output, source: &Source<'_>, place: Place) -> Result<(), NoMemory>
    ensures { OnOk result (out.new ≡ after out.old (spec.place_there source.now place)) }
{
    out.put(b" at")?;
    out.put_behind_blank(file_shown(source, place.file))?;
    put_behind_colon(out, place.line)?;
    put_behind_colon(out, place.col)
}

fn put_behind_colon(out: &mut Output, number: u32) -> Result<(), NoMemory>
    ensures { OnOk result (out.new ≡ after out.old (58 ∷ decimal number)) }
{
    let digits = number.to_string(out.alloc())?;
    out.put(b":")?;
    out.put(digits.as_bytes())
}

/// The name of the file of that number, or a question mark where there is none.
fn file_shown<'a>(source: &'a Source<'_>, file: u32) -> &'a [u8]
    ensures { result.now ≡ spec.file_shown source.now file }
{
    match source.code().files.as_slice().get(file as usize) {
        None => b"?".as_slice(),
        Some(name) => name.bytes(),
    }
}
