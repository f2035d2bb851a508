//! How a method of the kernel that evaluates blocks begins.

ghost use Rattle.std.specs.Prelude.{◌≡◌, pos};
ghost use Rattle.ns_kdata.specs.Arguments.{CellIsThere};
ghost use Rattle.ns_kcode.specs.Rows as rows;
ghost use Rattle.ns_moves.specs.Blocks as spec;

use ns_kcode::state::KState;
use ns_kdata::arguments::{array_size, shape_of_value};
use ns_world::cell::NewCell;
use ns_world::kernel_parts::KMethod;
use ns_world::value::Value;
use ns_world::world::World;

/// Whether a value is a Block.
pub fn is_block(world: &World, value: Value) -> bool
    requires { CellIsThere world.now.world.cells value }
    ensures { result ≡ spec.is_block world.now.world.cells value }
{
    match shape_of_value(world, value) {
        NewCell::Block { .. } => true,
        _ => false,
    }
}

/// Whether a value is an Integer.
#[inline(always)]
pub fn is_integer(value: Value) -> bool
    ensures { result ≡ spec.is_integer value }
{
    match value {
        Value::Int(_) => true,
        _ => false,
    }
}

/// Whether the arguments are those that a method asks for: blocks, also those that it won't
/// evaluate, and for `to:do:` an Integer first. Where they aren't, its send is WrongKind.
pub fn has_arguments(world: &World, method: KMethod, first: Value, second: Value) -> bool
    requires first { CellIsThere world.now.world.cells first }
    requires second { CellIsThere world.now.world.cells second }
    ensures { result ≡ spec.has_arguments world.now.world.cells method first second }
{
    match method {
        KMethod::IfTrueIfFalse => are_blocks(world, first, second),
        KMethod::IfFalseIfTrue => are_blocks(world, first, second),
        KMethod::ToDo => is_integer(first) && is_block(world, second),
        _ => is_block(world, first),
    }
}

/// Whether both are Blocks.
fn are_blocks(world: &World, first: Value, second: Value) -> bool
    requires first { CellIsThere world.now.world.cells first }
    requires second { CellIsThere world.now.world.cells second }
    ensures { result ≡ spec.are_blocks world.now.world.cells first second }
{
    is_block(world, first) && is_block(world, second)
}

/// For how many elements `do:` has turns: as many as the array has as it begins. 0 for the other
/// methods.
fn turns(world: &World, method: KMethod, receiver: Value) -> u32
    requires { CellIsThere world.now.world.cells receiver }
    ensures { result ≡ spec.turns_of world.now.world.cells method receiver }
{
    match method {
        KMethod::Do => array_size(world, receiver),
        _ => 0,
    }
}

/// The state in which a method begins.
pub fn beginning(
    world: &World,
    method: KMethod,
    receiver: Value,
    first: Value,
    second: Value,
) -> KState
    requires { CellIsThere world.now.world.cells receiver }
    ensures { result ≡ rows.beginning receiver first second (pos (spec.turns_of world.now.world.cells method receiver)) }
{
    KState {
        receiver,
        first,
        second,
        size: turns(world, method, receiver) as i64,
        count: 0,
        last: None,
    }
}
