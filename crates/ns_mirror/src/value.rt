//! What a mirror sees of the value that it mirrors.

ghost use Rattle.std.specs.Prelude.{◌≡◌, ◌≢◌, IsSome};
ghost use Rattle.ns_world.specs.Heap.{find_cell, no_class};
ghost use Rattle.ns_kdata.specs.Arguments.{CellIsThere};
ghost use Rattle.ns_mirror.specs.Looking as spec;

use ns_kdata::arguments::shape_of_value;
use ns_world::cell::NewCell;
use ns_world::kernel::NO_CLASS;
use ns_world::value::Value;
use ns_world::world::World;

/// The value that the mirror of that number mirrors.
pub fn mirrored(world: &World, mirror: u32) -> Value
    requires { IsSome (find_cell world.now.world.cells mirror) }
    ensures { result ≡ spec.mirrored world.now.world.cells mirror }
{
    match world.cell(mirror) {
        NewCell::Mirror(value) => value,
        _ => Value::Nil,
    }
}

/// The class of an object, the number of no class for any other value.
pub fn object_class(world: &World, value: Value) -> u32
    requires { CellIsThere world.now.world.cells value }
    ensures { result ≡ spec.object_class world.now.world.cells value }
{
    match shape_of_value(world, value) {
        NewCell::Object { class, .. } => class,
        _ => NO_CLASS,
    }
}

/// `enclosing`: the enclosing object of an object's class, or of the class that is mirrored; nil
/// for kernel values.
pub fn enclosing(world: &World, value: Value) -> Value
    requires there { CellIsThere world.now.world.cells value }
    requires class { spec.object_class world.now.world.cells value ≢ no_class →
        IsSome (find_cell world.now.world.cells (spec.object_class world.now.world.cells value)) }
    ensures { result ≡ spec.enclosing world.now.world.cells value }
{
    match shape_of_value(world, value) {
        NewCell::Object { class, .. } => enclosing_of_class(world, class),
        NewCell::Class { encl, .. } => encl,
        _ => Value::Nil,
    }
}

/// The enclosing object of a class, nil for the number of no class.
fn enclosing_of_class(world: &World, class: u32) -> Value
    requires { class ≢ no_class → IsSome (find_cell world.now.world.cells class) }
    ensures { result ≡ spec.enclosing_of_class world.now.world.cells class }
{
    if class == NO_CLASS {
        return Value::Nil;
    }
    match world.cell(class) {
        NewCell::Class { encl, .. } => encl,
        _ => Value::Nil,
    }
}
