//! What a row reads from its receiver and its arguments.

ghost use Rattle.std.specs.Prelude.{◌≡◌, ◌+◌, ◌*◌, ◌<◌, ◌≤◌, length, IfOk};
ghost use Rattle.std.specs.List.{slice_index, slice_index_or};
ghost use Rattle.ns_world.specs.declared.value.Value.TheVariants as value_is;
ghost use Rattle.ns_world.specs.Head.{head_of_shape};
ghost use Rattle.ns_kdata.specs.Arguments as spec;
ghost use Rattle.ns_kdata.specs.Arguments.{CellIsThere, bytes_of, items_of};
ghost use Rattle.ns_kdata.specs.Outcome as outcome;

use ns_code::program::CodeProgram;
use ns_world::cell::NewCell;
use ns_world::ending::{Fault, Kind};
use ns_world::head::Head;
use ns_world::value::Value;
use ns_world::world::World;

/// A part of a text: where it starts, counted from 0, and how many bytes it has.
#[derive(Clone, Copy)]
pub struct Part {
    pub start: u32,
    pub count: u32,
}

/// The argument of that place from 0, nil where there is none.
#[inline(always)]
pub fn argument(args: &[Value], place: usize) -> Value
    ensures { result ≡ spec.argument args.now place }
{
    match args.get(place) {
        Some(value) => *value,
        None => Value::Nil,
    }
}

/// The fault of an argument that isn't of the kind that the row names.
#[inline(always)]
pub fn wrong_kind() -> Fault
    ensures { result ≡ outcome.wrong_kind }
{
    Fault::Kind(Kind::WrongKind)
}

/// The fault of an index or a size outside the row's range.
#[inline(always)]
pub fn out_of_range() -> Fault
    ensures { result ≡ outcome.out_of_range }
{
    Fault::Kind(Kind::OutOfRange)
}

/// The kind and the sizes of the cell that a value refers to; those of a mirror of nil where it
/// refers to none.
#[inline(always)]
pub fn shape_of_value(world: &World, value: Value) -> NewCell
    requires { CellIsThere world.now.world.cells value }
    ensures { result ≡ spec.shape_of_value world.now.world.cells value }
{
    match value {
        Value::Ref(at) => world.cell(at),
        _ => NewCell::Mirror(Value::Nil),
    }
}

/// The kind and the size of the cell that a value refers to; those of a mirror where it refers to
/// none.
#[inline(always)]
fn head_of_value(world: &World, value: Value) -> Head
    requires { CellIsThere world.now.world.cells value }
    ensures { result ≡ head_of_shape (spec.shape_of_value world.now.world.cells value) }
{
    match value {
        Value::Ref(at) => world.head(at),
        _ => Head::Mirror,
    }
}

/// Whether a value is a String.
#[inline(always)]
#[tactic(auto, using(crate::proofs::Heads::text_head))]
pub fn is_text(world: &World, value: Value) -> bool
    requires { CellIsThere world.now.world.cells value }
    ensures { result ≡ spec.is_text world.now.world.cells value }
{
    is_text_head(head_of_value(world, value))
}

#[inline(always)]
fn is_text_head(head: Head) -> bool
    ensures { result ≡ spec.is_text_head head }
{
    match head {
        Head::Text { .. } => true,
        _ => false,
    }
}

/// Whether a value is an Array.
#[inline(always)]
#[tactic(auto, using(crate::proofs::Heads::array_head))]
pub fn is_array(world: &World, value: Value) -> bool
    requires { CellIsThere world.now.world.cells value }
    ensures { result ≡ spec.is_array world.now.world.cells value }
{
    is_array_head(head_of_value(world, value))
}

#[inline(always)]
fn is_array_head(head: Head) -> bool
    ensures { result ≡ spec.is_array_head head }
{
    match head {
        Head::Array { .. } => true,
        _ => false,
    }
}

/// Whether a value is a Message.
#[tactic(auto, using(crate::proofs::Heads::message_head))]
pub fn is_message(world: &World, value: Value) -> bool
    requires { CellIsThere world.now.world.cells value }
    ensures { result ≡ spec.is_message world.now.world.cells value }
{
    is_message_head(head_of_value(world, value))
}

fn is_message_head(head: Head) -> bool
    ensures { result ≡ spec.is_message_head head }
{
    match head {
        Head::Message(_) => true,
        _ => false,
    }
}

/// How many bytes a String has.
#[inline(always)]
#[tactic(auto, using(crate::proofs::Shapes::text_size_told, crate::proofs::Heads::text_size_head))]
pub fn text_size(world: &World, text: Value) -> u32
    requires { CellIsThere world.now.world.cells text }
    ensures { result ≡ length (bytes_of world.now.world.cells text) }
{
    text_size_at(head_of_value(world, text))
}

#[inline(always)]
fn text_size_at(head: Head) -> u32
    ensures { result ≡ spec.text_size_at head }
{
    match head {
        Head::Text { bytes } => bytes,
        _ => 0,
    }
}

/// A byte of a String.
#[inline(always)]
pub fn text_byte(world: &World, text: Value, place: u32) -> u8
    requires { place < length (bytes_of world.now.world.cells text) }
    ensures { result ≡ slice_index (bytes_of world.now.world.cells text) place }
{
    match text {
        Value::Ref(at) => world.byte(at, place),
        _ => 0,
    }
}

/// Eight bytes of a String, the row of that number.
pub fn text_row(world: &World, text: Value, row: u32) -> [u8; 8]
    requires { 8 * row + 8 ≤ length (bytes_of world.now.world.cells text) }
    ensures { result ≡ spec.row_of world.now.world.cells text row }
{
    match text {
        Value::Ref(at) => world.row(at, row),
        _ => [0; 8],
    }
}

/// How many elements an Array has.
#[inline(always)]
#[tactic(auto, using(crate::proofs::Shapes::array_size_told, crate::proofs::Heads::array_size_head))]
pub fn array_size(world: &World, array: Value) -> u32
    requires { CellIsThere world.now.world.cells array }
    ensures { result ≡ length (items_of world.now.world.cells array) }
{
    array_size_at(head_of_value(world, array))
}

#[inline(always)]
fn array_size_at(head: Head) -> u32
    ensures { result ≡ spec.array_size_at head }
{
    match head {
        Head::Array { size } => size,
        _ => 0,
    }
}

/// An element of an Array.
#[inline(always)]
#[tactic(auto, using(crate::specs::laws::Items::items_are_words))]
pub fn array_item(world: &World, array: Value, place: u32) -> Value
    requires { place < length (items_of world.now.world.cells array) }
    ensures { result ≡ slice_index_or (items_of world.now.world.cells array) place value_is.Nil }
{
    match array {
        Value::Ref(at) => world.read(at, place),
        _ => Value::Nil,
    }
}

/// The text of a Symbol.
pub fn symbol_text(code: &CodeProgram, symbol: Value) -> &[u8]
    ensures { result.now ≡ spec.symbol_text code.now symbol }
{
    match symbol {
        Value::Sym(sel) => code.selector_text(sel),
        _ => b"".as_slice(),
    }
}

/// The number of an Integer.
#[inline(always)]
pub fn number_of(value: Value) -> i64
    ensures { result ≡ spec.number_of value }
{
    match value {
        Value::Int(number) => number,
        _ => 0,
    }
}

/// The place that an argument names, counted from 0; WrongKind where it is no Integer, OutOfRange
/// where it is none of so many.
#[inline(always)]
pub fn place_in(value: Value, size: u32) -> Result<u32, Fault>
    ensures place { result ≡ spec.place_in value size }
    ensures below { IfOk result (λ p. p < size) }
{
    match value {
        Value::Int(number) => place_of_number(number, size),
        _ => Err(wrong_kind()),
    }
}

#[inline(always)]
fn place_of_number(number: i64, size: u32) -> Result<u32, Fault>
    ensures place { result ≡ spec.place_of_number number size }
    ensures below { IfOk result (λ p. p < size) }
{
    if number < 1 || i64::from(size) < number {
        return Err(out_of_range());
    }
    Ok((number.unsigned_abs() - 1) as u32)
}

/// The part that two arguments name, from one place to another; WrongKind where one of them is no
/// Integer, OutOfRange where there is no such part.
pub fn part_in(first: Value, last: Value, size: u32) -> Result<Part, Fault>
    ensures part { result ≡ spec.part_in first last size }
    ensures inside { IfOk result (λ p. p.start + p.count ≤ size) }
{
    match first {
        Value::Int(first) => part_from(first, last, size),
        _ => Err(wrong_kind()),
    }
}

fn part_from(first: i64, last: Value, size: u32) -> Result<Part, Fault>
    ensures part { result ≡ spec.part_in (value_is.Int first) last size }
    ensures inside { IfOk result (λ p. p.start + p.count ≤ size) }
{
    match last {
        Value::Int(last) => part_of_numbers(first, last, size),
        _ => Err(wrong_kind()),
    }
}

fn part_of_numbers(first: i64, last: i64, size: u32) -> Result<Part, Fault>
    ensures part { result ≡ spec.part_of_numbers first last size }
    ensures inside { IfOk result (λ p. p.start + p.count ≤ size) }
{
    if first < 1 || i64::from(size) < last || last < first - 1 {
        return Err(out_of_range());
    }
    Ok(Part {
        start: (first - 1).unsigned_abs() as u32,
        count: (last - (first - 1)).unsigned_abs() as u32,
    })
}
