//! Single fields, options and lists.

ghost use Rattle.ns_image.specs.Reads.{ReadsBytes};
ghost use Rattle.ns_snapshot.specs.Fields as spec;

use ns_base::items::Items;
use ns_image::fault::Fault;
use ns_image::read::format::{Format, times};
use ns_image::read::input::Input;
use std::alloc::Global;

/// A number of eight bytes.
pub fn double(input: &mut Input<'_>) -> Result<u64, Fault>
    ensures { ReadsBytes (spec.double input.old.rest.now) result input.new.rest.now }
{
    let bytes = input.taken(8)?;
    Ok(u64::from_be_bytes([
        bytes[0], bytes[1], bytes[2], bytes[3], bytes[4], bytes[5], bytes[6], bytes[7],
    ]))
}

/// A number of eight bytes, which is bad where it isn't from 1 to the greatest.
pub fn from_1_to(input: &mut Input<'_>, greatest: u64) -> Result<u64, Fault>
    ensures { ReadsBytes (spec.from_1_to greatest input.old.rest.now) result input.new.rest.now }
{
    let left = input.rest.len();
    let number = double(input)?;
    if number < 1 {
        return Err(Fault::Bad(left));
    }
    if number > greatest {
        return Err(Fault::Bad(left));
    }
    Ok(number)
}

/// 0 for none, or 1 and the item.
#[tactic(auto, unfolding(ns_snapshot::specs::Fields::option, ns_snapshot::specs::Fields::one_of))]
pub fn option<F: Format>(
    alloc: Global,
    input: &mut Input<'_>,
    format: &F,
) -> Result<Option<F::Value>, Fault>
    ensures { ReadsBytes (spec.option (F.reader format.now) input.old.rest.now) result input.new.rest.now }
{
    let left = input.rest.len();
    match input.byte()? {
        0 => Ok(None),
        1 => Ok(Some(format.read(alloc, input)?)),
        2..=255 => Err(Fault::Bad(left)),
    }
}

/// Items behind their count.
#[tactic(auto, unfolding(ns_snapshot::specs::Fields::counted))]
pub fn counted<F: Format>(
    alloc: Global,
    input: &mut Input<'_>,
    format: &F,
) -> Result<Items<F::Value>, Fault>
    ensures { ReadsBytes (spec.counted (F.reader format.now) input.old.rest.now) result input.new.rest.now }
{
    let count = input.word()?;
    times(alloc, input, format, count)
}
