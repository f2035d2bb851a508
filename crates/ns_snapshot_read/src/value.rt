//! Values and the sites of sends.

ghost use Rattle.ns_image.specs.Reads.{ReadsBytes};
ghost use Rattle.ns_snapshot.specs.Fields as spec;

use crate::field::{counted, option};
use crate::variant::{kernel_class, kernel_row};
use ns_base::items::Items;
use ns_base::place::Place;
use ns_frozen::plain::PlainValue;
use ns_image::fault::Fault;
use ns_image::read::format::Format;
use ns_image::read::input::Input;
use ns_moves::site::Site;
use ns_world::kernel::ClassName;
use ns_world::value::Value;
use std::alloc::Global;

/// A value.
#[tactic(auto, unfolding(ns_snapshot::specs::Fields::value, ns_snapshot::specs::Fields::one_of))]
pub fn value(input: &mut Input<'_>) -> Result<Value, Fault>
    ensures { ReadsBytes (spec.value input.old.rest.now) result input.new.rest.now }
{
    let left = input.rest.len();
    match input.byte()? {
        0 => Ok(Value::Nil),
        1 => Ok(Value::True),
        2 => Ok(Value::False),
        3 => Ok(Value::Int(input.long()?)),
        4 => Ok(Value::Sym(input.sel()?)),
        5 => Ok(Value::Kernel(kernel_class(input)?)),
        6 => Ok(Value::Ref(input.word()?)),
        7..=255 => Err(Fault::Bad(left)),
    }
}

/// How a value is read.
pub struct ValueFormat;

impl Format for ValueFormat {
    type Value = Value;

    ghost reader = { λ _. spec.value };

    fn read(&self, _alloc: Global, input: &mut Input<'_>) -> Result<Value, Fault> {
        value(input)
    }
}

/// A value, as plain data.
pub fn plain_value(input: &mut Input<'_>) -> Result<PlainValue, Fault>
    ensures { ReadsBytes (spec.value input.old.rest.now) result input.new.rest.now }
{
    let value = value(input)?;
    Ok(PlainValue::of(value))
}

/// How it is read.
pub struct PlainFormat;

impl Format for PlainFormat {
    type Value = PlainValue;

    ghost reader = { λ _. spec.value };

    fn read(&self, _alloc: Global, input: &mut Input<'_>) -> Result<PlainValue, Fault> {
        plain_value(input)
    }
}

/// Values behind their count, as plain data.
pub fn values(alloc: Global, input: &mut Input<'_>) -> Result<Items<PlainValue>, Fault>
    ensures { ReadsBytes (spec.values input.old.rest.now) result input.new.rest.now }
{
    counted(alloc, input, &PlainFormat)
}

/// How a place is read.
pub struct PlaceFormat;

impl Format for PlaceFormat {
    type Value = Place;

    ghost reader = { λ _. spec.place };

    #[tactic(auto, unfolding(ns_snapshot::specs::Fields::place))]
    fn read(&self, _alloc: Global, input: &mut Input<'_>) -> Result<Place, Fault> {
        let file = input.word()?;
        let line = input.word()?;
        let col = input.word()?;
        Ok(Place { file, line, col })
    }
}

/// The name of a class.
#[tactic(auto, unfolding(ns_snapshot::specs::Fields::class_name, ns_snapshot::specs::Fields::one_of))]
pub fn class_name(input: &mut Input<'_>) -> Result<ClassName, Fault>
    ensures { ReadsBytes (spec.class_name input.old.rest.now) result input.new.rest.now }
{
    let left = input.rest.len();
    match input.byte()? {
        0 => Ok(ClassName::Declared(input.word()?)),
        1 => Ok(ClassName::ClassOf(input.word()?)),
        2 => Ok(ClassName::Kernel(kernel_row(input)?)),
        3..=255 => Err(Fault::Bad(left)),
    }
}

/// The site of a send.
#[tactic(auto, unfolding(ns_snapshot::specs::Fields::site))]
pub fn site(alloc: Global, input: &mut Input<'_>) -> Result<Site, Fault>
    ensures { ReadsBytes (spec.site input.old.rest.now) result input.new.rest.now }
{
    let place = option(alloc, input, &PlaceFormat)?;
    let class = class_name(input)?;
    let sel = input.sel()?;
    Ok(Site { place, class, sel })
}
