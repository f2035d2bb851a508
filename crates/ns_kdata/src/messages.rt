//! The rows of Message.

ghost use Rattle.std.specs.Prelude.{◌≡◌};
ghost use Rattle.ns_kdata.specs.Arguments.{CellIsThere};
ghost use Rattle.ns_kdata.specs.Rows as spec;

use crate::arguments::shape_of_value;
use ns_world::cell::NewCell;
use ns_world::value::Value;
use ns_world::world::World;

/// `selector`.
pub fn message_selector(world: &World, message: Value) -> Value
    requires { CellIsThere world.now.world.cells message }
    ensures { result ≡ spec.message_selector world.now.world.cells message }
{
    match shape_of_value(world, message) {
        NewCell::Message { sel, .. } => Value::Sym(sel),
        _ => Value::Nil,
    }
}

/// `arguments`.
pub fn message_arguments(world: &World, message: Value) -> Value
    requires { CellIsThere world.now.world.cells message }
    ensures { result ≡ spec.message_arguments world.now.world.cells message }
{
    match shape_of_value(world, message) {
        NewCell::Message { args, .. } => args,
        _ => Value::Nil,
    }
}
