//! The letters that a value stands for, as they are read from the cells.

ghost use Rattle.std.specs.Prelude.{◌≡◌, ℕ, length, option_and_then, option_map, Some, IfOk, IsSome};
ghost use Rattle.ns_kdata.specs.Arguments.{items_of};
ghost use Rattle.ns_world.specs.declared.value.Value.TheVariants as value_is;
ghost use Rattle.ns_actors.specs.Outbox as spec;
ghost use Rattle.ns_actors_calls.specs.Parts.{one_selector, parts_at, parts_of, sized};

use crate::letter::letter_of;
use ns_actors::letter::Letter;
use ns_base::no_memory::NoMemory;
use ns_base::selector::Sel;
use ns_code::program::CodeProgram;
use ns_facets::board::Plain;
use ns_kdata::arguments::{array_item, array_size, is_array};
use ns_world::value::Value;
use ns_world::world::World;
use std::alloc::Global;

/// The parts of a letter in an outbox: to whom, the number of its selector, and the argument.
#[derive(Clone, Copy)]
pub struct Parts {
    pub to: u32,
    pub sel: Sel,
    pub arg: Plain,
}

/// How many letters a value stands for, if it is an outbox for so many actors. It takes no memory.
pub fn size_of_outbox(world: &World, code: &CodeProgram, value: Value, count: u32) -> Option<u32>
    ensures { (from : ℕ) → option_map length (spec.outbox code.now world.now.world.cells value from count) ≡ result }
{
    match value {
        Value::Nil => Some(0),
        _ => size_of_letters(world, code, value, count),
    }
}

/// How many letters an Array stands for, if each element is a letter to one of so many actors.
fn size_of_letters(world: &World, code: &CodeProgram, array: Value, count: u32) -> Option<u32>
    ensures { result ≡ option_and_then (sized code.now world.now.world.cells count 0) (spec.array_in world.now.world.cells array) }
{
    match size_in(world, array) {
        Some(size) => count_letters(world, code, array, count, size),
        None => None,
    }
}

/// How many letters an Array of so many elements stands for, if each is one to one of so many actors.
fn count_letters(
    world: &World,
    code: &CodeProgram,
    array: Value,
    count: u32,
    size: u32,
) -> Option<u32>
    requires { size ≡ length (items_of world.now.world.cells array) }
    ensures { result ≡ sized code.now world.now.world.cells count 0 (items_of world.now.world.cells array) }
{
    'elements: for place in 0..size {
        match parts_at(world, code, array_item(world, array, place), count) {
            Some(_) => {}
            None => return None,
        }
    }
    Some(size)
}

/// How many elements a value has, if it is an Array.
fn size_in(world: &World, value: Value) -> Option<u32>
    ensures { result ≡ option_map length (spec.array_in world.now.world.cells value) }
{
    if !world.is_receiver(value) {
        return None;
    }
    if !is_array(world, value) {
        return None;
    }
    Some(array_size(world, value))
}

/// The parts of a letter to one of so many actors that a value stands for.
fn parts_at(world: &World, code: &CodeProgram, value: Value, count: u32) -> Option<Parts>
    ensures { result ≡ parts_at code.now world.now.world.cells count value }
{
    match size_in(world, value) {
        Some(3) => parts_of(
            code,
            count,
            array_item(world, value, 0),
            array_item(world, value, 1),
            array_item(world, value, 2),
        ),
        _ => None,
    }
}

/// Three values as the parts of a letter.
fn parts_of(code: &CodeProgram, count: u32, to: Value, sel: Value, arg: Value) -> Option<Parts>
    ensures { result ≡ parts_of code.now count to sel arg }
{
    let to = actor_of(count, to)?;
    let sel = selector_of(code, sel)?;
    let arg = plain_in(arg)?;
    Some(Parts { to, sel, arg })
}

/// The number of one of so many actors.
fn actor_of(count: u32, value: Value) -> Option<u32>
    ensures { result ≡ spec.actor_of count value }
{
    match value {
        Value::Int(number) => numbered(count, number),
        _ => None,
    }
}

/// The number of one of so many.
fn numbered(count: u32, number: i64) -> Option<u32>
    ensures { result ≡ spec.actor_of count (value_is.Int number) }
{
    if number < 0 || i64::from(count) <= number {
        return None;
    }
    Some(number.unsigned_abs() as u32)
}

/// A selector of one argument.
fn selector_of(code: &CodeProgram, value: Value) -> Option<Sel>
    ensures { result ≡ one_selector code.now value }
{
    match value {
        Value::Sym(sel) => {
            if code.selector_arity(sel) == 1 {
                Some(sel)
            } else {
                None
            }
        }
        _ => None,
    }
}

/// Nil, a boolean or an Integer.
fn plain_in(value: Value) -> Option<Plain>
    ensures { result ≡ spec.plain_in value }
{
    match value {
        Value::Nil => Some(Plain::Nil),
        Value::True => Some(Plain::True),
        Value::False => Some(Plain::False),
        Value::Int(number) => Some(Plain::Int(number)),
        _ => None,
    }
}

/// The letters that a value stands for, which is an outbox for so many actors.
pub fn read_outbox(
    alloc: Global,
    world: &World,
    code: &CodeProgram,
    value: Value,
    from: u32,
    count: u32,
) -> Result<Vec<Letter>, NoMemory>
    requires { IsSome (spec.outbox code.now world.now.world.cells value from count) }
    ensures { IfOk result (λ letters. spec.outbox code.now world.now.world.cells value from count ≡ Some letters.items) }
{
    match size_in(world, value) {
        Some(size) => read_letters(alloc, world, code, value, from, count, size),
        None => Ok(Vec::new(alloc)),
    }
}

/// The letters of an Array of so many elements, each of which is one.
fn read_letters(
    alloc: Global,
    world: &World,
    code: &CodeProgram,
    array: Value,
    from: u32,
    count: u32,
    size: u32,
) -> Result<Vec<Letter>, NoMemory>
    requires letters { IsSome (spec.letters_of code.now world.now.world.cells from count (items_of world.now.world.cells array)) }
    requires size { size ≡ length (items_of world.now.world.cells array) }
    ensures { IfOk result (λ letters. spec.letters_of code.now world.now.world.cells from count (items_of world.now.world.cells array)
        ≡ Some letters.items) }
{
    let mut letters = Vec::new(alloc);
    'elements: for place in 0..size {
        match parts_at(world, code, array_item(world, array, place), count) {
            Some(parts) => {
                let sel = code.selector_text(parts.sel);
                letters.push(letter_of(alloc, from, parts.to, sel, parts.arg)?)?;
            }
            None => unreachable!(),
        }
    }
    Ok(letters)
}
