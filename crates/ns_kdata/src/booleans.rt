//! The rows of nil, of Boolean that evaluate no block, and `printString` of Integer.

ghost use Rattle.std.specs.Prelude.{◌≡◌, ◌≤◌};
ghost use Rattle.ns_kdata.specs.Outcome.{Gives};
ghost use Rattle.ns_kdata.specs.Rows as spec;
ghost use Rattle.ns_world.specs.World.{IsWithin};

use crate::arguments::{number_of, wrong_kind};
use crate::decimal::decimal_text;
use crate::making::make_text;
use ns_world::ending::Fault;
use ns_world::value::Value;
use ns_world::world::World;

/// `printString` of nil.
pub fn nil_print(world: &mut World) -> Result<Value, Fault>
    requires room { world.old.world.limits.cells ≤ world.old.cell_room }
    requires within { IsWithin world.old.world }
    ensures { Gives (spec.nil_print world.old.world) world.old result world.new }
{
    make_text(world, b"".as_slice(), b"nil".as_slice())
}

/// `printString` of a boolean.
pub fn boolean_print(world: &mut World, value: Value) -> Result<Value, Fault>
    requires room { world.old.world.limits.cells ≤ world.old.cell_room }
    requires within { IsWithin world.old.world }
    ensures { Gives (spec.boolean_print world.old.world value) world.old result world.new }
{
    make_text(world, b"".as_slice(), boolean_text(value))
}

fn boolean_text(value: Value) -> &'static [u8]
    ensures { result.now ≡ spec.boolean_text value }
{
    match value {
        Value::True => b"true".as_slice(),
        _ => b"false".as_slice(),
    }
}

/// `printString` of an Integer.
pub fn integer_print(world: &mut World, value: Value) -> Result<Value, Fault>
    requires room { world.old.world.limits.cells ≤ world.old.cell_room }
    requires within { IsWithin world.old.world }
    ensures { Gives (spec.integer_print world.old.world value) world.old result world.new }
{
    let mut room = [0; 20];
    make_text(
        world,
        b"".as_slice(),
        decimal_text(number_of(value), &mut room),
    )
}

/// `not`.
#[inline(always)]
pub fn negation(value: Value) -> Value
    ensures { result ≡ spec.negation value }
{
    match value {
        Value::True => Value::False,
        _ => Value::True,
    }
}

/// `&`: the receiver where the argument is true.
#[inline(always)]
pub fn conjunction(receiver: Value, value: Value) -> Result<Value, Fault>
    ensures { result ≡ spec.conjunction receiver value }
{
    match value {
        Value::True => Ok(only_true(receiver)),
        Value::False => Ok(Value::False),
        _ => Err(wrong_kind()),
    }
}

/// `|`: the receiver where the argument is false.
#[inline(always)]
pub fn disjunction(receiver: Value, value: Value) -> Result<Value, Fault>
    ensures { result ≡ spec.disjunction receiver value }
{
    match value {
        Value::True => Ok(Value::True),
        Value::False => Ok(only_true(receiver)),
        _ => Err(wrong_kind()),
    }
}

/// True where a value is true, else false.
#[inline(always)]
fn only_true(value: Value) -> Value
    ensures { result ≡ spec.only_true value }
{
    match value {
        Value::True => Value::True,
        _ => Value::False,
    }
}
