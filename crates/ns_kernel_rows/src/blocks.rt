//! The rows of Block, and how the methods of the kernel that evaluate blocks begin.

ghost use Rattle.std.specs.Prelude.{◌≡◌};
ghost use Rattle.ns_world.specs.declared.value.Value.TheVariants.{Ref};
ghost use Rattle.ns_world.specs.World.{SameRoom};
ghost use Rattle.ns_kdata.specs.Arguments.{CellIsThere};
ghost use Rattle.ns_moves.specs.Blocks as spec;
ghost use Rattle.ns_moves.specs.Bodies as bodies;
ghost use Rattle.ns_kernel_rows.specs.Plain.{IsOfRow};
ghost use Rattle.ns_kernel_rows.specs.Reaching.{ReachesAlways};

use crate::reached::fails;
use ns_code::program::CodeProgram;
use ns_kdata::arguments::{array_size, is_array, shape_of_value};
use ns_moves::begin::{beginning, has_arguments};
use ns_moves::control::{Given, Reached};
use ns_world::cell::NewCell;
use ns_world::ending::{Fault, Kind};
use ns_world::kernel_parts::KMethod;
use ns_world::value::Value;
use ns_world::world::World;

/// A method of the kernel that evaluates blocks begins: WrongKind where its arguments aren't those
/// that it asks for, then the charge of its frame.
pub fn method_begun(
    world: &mut World,
    method: KMethod,
    receiver: Value,
    first: Value,
    second: Value,
) -> Reached
    requires receiver { CellIsThere world.old.world.cells receiver }
    requires first { CellIsThere world.old.world.cells first }
    requires second { CellIsThere world.old.world.cells second }
    ensures reached { ReachesAlways (spec.method_begun method receiver first second) world.old result world.new }
    ensures limits { world.new.world.limits ≡ world.old.world.limits }
    ensures room { SameRoom world.old world.new }
    ensures row { IsOfRow world.new.world.cells result }
{
    if !has_arguments(world, method, first, second) {
        return fails(Kind::WrongKind);
    }
    let state = beginning(world, method, receiver, first, second);
    match world.enter() {
        Ok(()) => Reached::Begins { method, state },
        Err(limit) => Reached::Fails(Fault::Limit(limit)),
    }
}

/// `valueWithArguments:`: WrongKind where the argument is no Array, WrongArity where it has more
/// than 255 elements, too many for any block.
pub fn value_with_arguments(world: &World, block: Value, array: Value) -> Reached
    requires { CellIsThere world.now.world.cells array }
    ensures reached { ReachesAlways (spec.value_with_arguments block array) world.now result world.now }
    ensures row { IsOfRow world.now.world.cells result }
{
    match array {
        Value::Ref(at) => evaluated_with(world, block, at),
        _ => fails(Kind::WrongKind),
    }
}

/// The same, by the number of the cell that is to be an Array.
fn evaluated_with(world: &World, block: Value, at: u32) -> Reached
    requires { CellIsThere world.now.world.cells (Ref at) }
    ensures reached { ReachesAlways (spec.value_with_arguments block (Ref at)) world.now result world.now }
    ensures row { IsOfRow world.now.world.cells result }
{
    if !is_array(world, Value::Ref(at)) {
        return fails(Kind::WrongKind);
    }
    if 255 < array_size(world, Value::Ref(at)) {
        return fails(Kind::WrongArity);
    }
    Reached::Evaluates {
        block,
        given: Given::Items(at),
    }
}

/// How many arguments a Block takes.
pub fn block_arity(world: &World, code: &CodeProgram, block: Value) -> u8
    requires { CellIsThere world.now.world.cells block }
    ensures { result ≡ spec.block_arity code.now world.now.world.cells block }
{
    match shape_of_value(world, block) {
        NewCell::Block { body, .. } => parameters_of(code, body),
        _ => parameters_of(code, 0),
    }
}

/// How many parameters a body has.
pub fn parameters_of(code: &CodeProgram, body: u32) -> u8
    ensures { result ≡ bodies.parameters_of code.now body }
{
    match code.bodies.as_slice().get(body as usize) {
        Some(body) => body.params,
        None => 0,
    }
}
