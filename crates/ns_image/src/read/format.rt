//! Formats of what an image has many of.

ghost use Rattle.ns_image.specs.Read as spec;
ghost use Rattle.ns_image.specs.Reading.{up_to};
ghost use Rattle.ns_image.specs.Reads.{ReadsBytes};

use crate::fault::Fault;
use crate::read::input::Input;
use ns_base::items::Items;
use std::alloc::Global;

/// How something is read that doesn't depend on what stands beside it.
pub trait Format {
    type Value: Drop;

    ghost reader: { Self → spec.Reader Self.Value };

    /// Reads one.
    fn read(&self, alloc: Global, input: &mut Input<'_>) -> Result<Self::Value, Fault>
        ensures { ReadsBytes (reader self.now input.old.rest.now) result input.new.rest.now };
}

/// Reads so many, one behind the other.
pub fn times<F: Format>(
    alloc: Global,
    input: &mut Input<'_>,
    format: &F,
    count: u32,
) -> Result<Items<F::Value>, Fault>
    ensures { ReadsBytes (spec.times count (F.reader format.now) input.old.rest.now) result input.new.rest.now }
{
    let mut items = Vec::new(alloc);
    'items: for _ in 0..count {
        let item = format.read(alloc, input)?;
        items.push(item)?;
    }
    Ok(Items::from_vec(items))
}

/// Items behind their count, which is bad above the greatest.
pub fn up_to<F: Format>(
    alloc: Global,
    input: &mut Input<'_>,
    format: &F,
    most: u32,
) -> Result<Items<F::Value>, Fault>
    ensures { ReadsBytes (up_to most (F.reader format.now) input.old.rest.now) result input.new.rest.now }
{
    let count = input.word_up_to(most)?;
    times(alloc, input, format, count)
}
