//! Places of instructions.

ghost use Rattle.std.specs.Prelude.{◌≡◌};
ghost use Rattle.ns_image.specs.Read as fields;
ghost use Rattle.ns_image.specs.Reading as spec;
ghost use Rattle.ns_image.specs.Reads.{ReadsBytes};

use crate::fault::Fault;
use crate::read::input::Input;
use ns_base::items::Items;
use ns_base::place::Place;
use ns_code::instructions::Instructions;
use std::alloc::Global;

/// Whether there is an instruction of that number, and it carries a place.
fn is_carrier(instrs: &Instructions, number: u32) -> bool
    ensures { result ≡ spec.is_carrier instrs.now number }
{
    instrs.carries_place(number as usize)
}

/// The number of an instruction that carries a place, and at least this one.
fn carrier(input: &mut Input<'_>, instrs: &Instructions, least: u64) -> Result<u32, Fault>
    ensures { ReadsBytes (spec.carrier instrs.now least input.old.rest.now) result input.new.rest.now }
{
    let left = input.rest.len();
    let number = input.word()?;
    if u64::from(number) < least {
        return Err(Fault::Bad(left));
    }
    if !is_carrier(instrs, number) {
        return Err(Fault::Bad(left));
    }
    Ok(number)
}

/// A number below that of the files.
fn file(input: &mut Input<'_>, files: usize) -> Result<u32, Fault>
    ensures { ReadsBytes (spec.file files input.old.rest.now) result input.new.rest.now }
{
    let left = input.rest.len();
    let number = input.word()?;
    if number as usize >= files {
        return Err(Fault::Bad(left));
    }
    Ok(number)
}

/// A line or a column, which are counted from 1.
fn from_one(input: &mut Input<'_>) -> Result<u32, Fault>
    ensures { ReadsBytes (spec.from_one input.old.rest.now) result input.new.rest.now }
{
    let left = input.rest.len();
    let number = input.word()?;
    if number == 0 {
        return Err(Fault::Bad(left));
    }
    Ok(number)
}

/// A place behind the number of its instruction.
#[tactic(auto, unfolding(crate::specs::Reading::place))]
fn place(
    input: &mut Input<'_>,
    files: usize,
    instrs: &Instructions,
    least: u64,
) -> Result<(u32, Place), Fault>
    ensures { ReadsBytes (spec.place files instrs.now least input.old.rest.now) result input.new.rest.now }
{
    let number = carrier(input, instrs, least)?;
    let file = file(input, files)?;
    let line = from_one(input)?;
    let col = from_one(input)?;
    Ok((number, Place { file, line, col }))
}

/// Places behind their count, in the order of their instructions.
pub fn places(
    alloc: Global,
    input: &mut Input<'_>,
    files: usize,
    instrs: &Instructions,
) -> Result<Items<(u32, Place)>, Fault>
    ensures { ReadsBytes (spec.places files instrs.now input.old.rest.now) result input.new.rest.now }
{
    let count = input.word()?;
    places_of(alloc, input, files, instrs, count)
}

fn places_of(
    alloc: Global,
    input: &mut Input<'_>,
    files: usize,
    instrs: &Instructions,
    count: u32,
) -> Result<Items<(u32, Place)>, Fault>
    ensures { ReadsBytes (fields.chained (spec.place files instrs.now) spec.behind_place count 0 input.old.rest.now) result input.new.rest.now }
{
    let mut least = 0;
    let mut places = Vec::new(alloc);
    'places: for _ in 0..count {
        let item = place(input, files, instrs, least)?;
        least = u64::from(item.0) + 1;
        places.push(item)?;
    }
    Ok(Items::from_vec(places))
}
