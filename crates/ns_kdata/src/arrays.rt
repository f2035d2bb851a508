//! The rows of Array but `do:`.

ghost use Rattle.std.specs.Prelude.{◌≡◌, ◌<◌, length, IfSome, Ok};
ghost use Rattle.ns_kdata.specs.Arguments.{CellIsThere, items_of, place_in};
ghost use Rattle.ns_kdata.specs.Outcome.{Gives};
ghost use Rattle.ns_world.specs.World.{stored};
ghost use Rattle.ns_kdata.specs.Rows as spec;

use crate::arguments::{array_item, array_size as items_in, place_in};
use ns_world::ending::Fault;
use ns_world::value::Value;
use ns_world::world::World;

/// `size`.
#[inline(always)]
pub fn array_size(world: &World, array: Value) -> Value
    requires { CellIsThere world.now.world.cells array }
    ensures { result ≡ spec.array_size world.now.world.cells array }
{
    Value::Int(i64::from(items_in(world, array)))
}

/// `at:`.
#[inline(always)]
pub fn array_at(world: &World, array: Value, place: Value) -> Result<Value, Fault>
    requires { CellIsThere world.now.world.cells array }
    ensures { result ≡ spec.array_at world.now.world.cells array place }
{
    let place = place_in(place, items_in(world, array))?;
    Ok(array_item(world, array, place))
}

/// `at:put:`.
pub fn array_put(
    world: &mut World,
    array: Value,
    place: Value,
    value: Value,
) -> Result<Value, Fault>
    requires { CellIsThere world.old.world.cells array }
    ensures { Gives (spec.array_put world.old.world array place value) world.old result world.new }
{
    let place = place_in(place, items_in(world, array))?;
    store(world, array, place, value);
    Ok(value)
}

/// The place that an argument names, counted from 0, none where `at:put:` has a fault.
#[inline(always)]
pub fn place_at(world: &World, array: Value, place: Value) -> Option<u32>
    requires { CellIsThere world.now.world.cells array }
    ensures place { IfSome result (λ p. place_in place (length (items_of world.now.world.cells array)) ≡ Ok p) }
    ensures below { IfSome result (λ p. p < length (items_of world.now.world.cells array)) }
{
    match place_in(place, items_in(world, array)) {
        Ok(place) => Some(place),
        Err(_) => None,
    }
}

/// Stores an element.
#[inline(always)]
#[tactic(auto, using(crate::specs::laws::Items::items_are_words))]
pub fn store(world: &mut World, array: Value, place: u32, value: Value)
    requires { place < length (items_of world.old.world.cells array) }
    ensures { world.new ≡ record world.old { world = stored world.old.world array place value } }
{
    world.store(array, place, value);
}
