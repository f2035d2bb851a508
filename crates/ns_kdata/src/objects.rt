//! The rows of all values, and those of the class objects Object and Array.

ghost use Rattle.std.specs.Prelude.{◌≡◌, ◌≤◌};
ghost use Rattle.ns_kdata.specs.Arguments.{CellIsThere};
ghost use Rattle.ns_kdata.specs.Outcome.{Gives};
ghost use Rattle.ns_kdata.specs.Rows as spec;

use crate::arguments::{is_message, out_of_range, wrong_kind};
use crate::making::make_cell;
use ns_world::cell::NewCell;
use ns_world::ending::{Fault, Kind};
use ns_world::kernel::NO_CLASS;
use ns_world::value::{KClass, Value};
use ns_world::world::World;

/// Whether two values are the same: the same cell for references.
#[inline(always)]
pub fn same_value(one: Value, other: Value) -> bool
    ensures { result ≡ spec.same_value one other }
{
    match (one, other) {
        (Value::Nil, Value::Nil) => true,
        (Value::True, Value::True) => true,
        (Value::False, Value::False) => true,
        (Value::Int(one), Value::Int(other)) => one == other,
        (Value::Sym(one), Value::Sym(other)) => one.0 == other.0,
        (Value::Kernel(one), Value::Kernel(other)) => same_kernel_class(one, other),
        (Value::Ref(one), Value::Ref(other)) => one == other,
        _ => false,
    }
}

#[inline(always)]
fn same_kernel_class(one: KClass, other: KClass) -> bool
    ensures { result ≡ spec.same_kernel_class one other }
{
    match (one, other) {
        (KClass::Object, KClass::Object) => true,
        (KClass::Array, KClass::Array) => true,
        _ => false,
    }
}

/// Whether a value is nil.
#[inline(always)]
pub fn is_nil(value: Value) -> bool
    ensures { result ≡ spec.is_nil value }
{
    match value {
        Value::Nil => true,
        _ => false,
    }
}

/// The fault of `doesNotUnderstand:`, which has no answer.
pub fn not_understood(world: &World, message: Value) -> Fault
    requires { CellIsThere world.now.world.cells message }
    ensures { result ≡ spec.not_understood world.now.world.cells message }
{
    if is_message(world, message) {
        Fault::Kind(Kind::NotUnderstood)
    } else {
        wrong_kind()
    }
}

/// `new` of Object class: an object of no declared class.
pub fn new_object(world: &mut World) -> Result<Value, Fault>
    requires room { world.old.world.limits.cells ≤ world.old.cell_room }
    ensures { Gives (spec.new_object world.old.world) world.old result world.new }
{
    make_cell(
        world,
        NewCell::Object {
            class: NO_CLASS,
            words: 0,
        },
    )
}

/// `new:` of Array class: an array of so many nils.
pub fn new_array(world: &mut World, size: Value) -> Result<Value, Fault>
    requires room { world.old.world.limits.cells ≤ world.old.cell_room }
    ensures { Gives (spec.new_array world.old.world size) world.old result world.new }
{
    match size {
        Value::Int(size) => array_of_size(world, size),
        _ => Err(wrong_kind()),
    }
}

fn array_of_size(world: &mut World, size: i64) -> Result<Value, Fault>
    requires room { world.old.world.limits.cells ≤ world.old.cell_room }
    ensures { Gives (spec.array_of_size world.old.world size) world.old result world.new }
{
    if size < 0 || 64_000_000 < size {
        return Err(out_of_range());
    }
    make_cell(
        world,
        NewCell::Array {
            size: size.unsigned_abs() as u32,
        },
    )
}
