//! New cells as answers, and new texts.

ghost use Rattle.std.specs.Prelude.{◌≡◌, ◌≢◌, ◌+◌, ◌<◌, ◌≤◌, ◌^◌, [], ◌∷◌, ◌++◌, length, IsTrue, IfOk};
ghost use Rattle.ns_world.specs.declared.value.Value.TheVariants as value_is;
ghost use Rattle.ns_world.specs.Cell.{fresh, TextCell};
ghost use Rattle.ns_world.specs.Heap.{has_superclass, bytes_at};
ghost use Rattle.ns_world.specs.World.{IsWithin};
ghost use Rattle.ns_kdata.specs.Arguments.{CellIsThere, bytes_of};
ghost use Rattle.ns_kdata.specs.Outcome.{Gives, making};
ghost use Rattle.ns_kdata.specs.Texts.{MakesText, filled, bytes_in};
ghost use Rattle.ns_base.specs.Quoted.{doubled, quoted};

use crate::arguments::{Part, text_byte, text_size};
use ns_world::cell::NewCell;
use ns_world::ending::{Fault, LimitKind};
use ns_world::value::Value;
use ns_world::world::World;

/// A new cell as the answer; the limit on cells exactly where its size would pass it.
pub fn make_cell(world: &mut World, cell: NewCell) -> Result<Value, Fault>
    requires room { world.old.world.limits.cells ≤ world.old.cell_room }
    requires superclass { IsTrue (has_superclass world.old.world.cells (fresh cell)) }
    ensures { Gives (making world.old.world (fresh cell)) world.old result world.new }
{
    match world.make(cell) {
        Ok(number) => Ok(Value::Ref(number)),
        Err(_) => Err(Fault::Limit(LimitKind::Cells)),
    }
}

/// A new text of so many bytes, all of them 0; the limit on cells exactly where it doesn't fit.
fn new_text(world: &mut World, bytes: u64) -> Result<u32, Fault>
    requires room { world.old.world.limits.cells ≤ world.old.cell_room }
    requires within { IsWithin world.old.world }
    ensures makes { MakesText world.old bytes result world.new }
    ensures small { IfOk result (λ to. bytes < 2 ^ 32) }
{
    if 4_294_967_295 < bytes {
        return Err(Fault::Limit(LimitKind::Cells));
    }
    match world.make(NewCell::Text {
        bytes: bytes as u32,
    }) {
        Ok(number) => Ok(number),
        Err(_) => Err(Fault::Limit(LimitKind::Cells)),
    }
}

/// A new text of bytes and others behind them.
pub fn make_text(world: &mut World, first: &[u8], second: &[u8]) -> Result<Value, Fault>
    requires room { world.old.world.limits.cells ≤ world.old.cell_room }
    requires within { IsWithin world.old.world }
    ensures { Gives (making world.old.world (TextCell (first.now ++ second.now))) world.old result world.new }
{
    match world.make_text(first, second) {
        Ok(number) => Ok(Value::Ref(number)),
        Err(_) => Err(Fault::Limit(LimitKind::Cells)),
    }
}

/// A new text of a part of a String.
pub fn copy_text(world: &mut World, from: Value, part: Part) -> Result<Value, Fault>
    requires room { world.old.world.limits.cells ≤ world.old.cell_room }
    requires there { CellIsThere world.old.world.cells from }
    requires inside { part.start + part.count ≤ length (bytes_of world.old.world.cells from) }
    requires within { IsWithin world.old.world }
    ensures { Gives (making world.old.world (TextCell (bytes_in (bytes_of world.old.world.cells from) part))) world.old result world.new }
{
    let to = new_text(world, u64::from(part.count))?;
    put_part(world, to, 0, from, part);
    Ok(Value::Ref(to))
}

/// A new text of the bytes of a String and those of another behind them.
pub fn join_texts(world: &mut World, one: Value, other: Value) -> Result<Value, Fault>
    requires room { world.old.world.limits.cells ≤ world.old.cell_room }
    requires one { CellIsThere world.old.world.cells one }
    requires other { CellIsThere world.old.world.cells other }
    requires within { IsWithin world.old.world }
    ensures { Gives (making world.old.world (TextCell (bytes_of world.old.world.cells one ++ bytes_of world.old.world.cells other)))
        world.old result world.new }
{
    let first = whole(world, one);
    let second = whole(world, other);
    let to = new_text(world, u64::from(first.count) + u64::from(second.count))?;
    put_part(world, to, 0, one, first);
    put_part(world, to, first.count, other, second);
    Ok(Value::Ref(to))
}

/// All of a String.
fn whole(world: &World, text: Value) -> Part
    requires { CellIsThere world.now.world.cells text }
    ensures start { result.start ≡ 0 }
    ensures count { result.count ≡ length (bytes_of world.now.world.cells text) }
    ensures bytes { bytes_in (bytes_of world.now.world.cells text) result ≡ bytes_of world.now.world.cells text }
{
    Part {
        start: 0,
        count: text_size(world, text),
    }
}

/// A new text of a String in quotes, with inner quotes doubled.
pub fn quote_text(world: &mut World, text: Value) -> Result<Value, Fault>
    requires room { world.old.world.limits.cells ≤ world.old.cell_room }
    requires there { CellIsThere world.old.world.cells text }
    requires within { IsWithin world.old.world }
    ensures { Gives (making world.old.world (TextCell (quoted (bytes_of world.old.world.cells text)))) world.old result world.new }
{
    let size = quoted_size(world, text);
    let to = new_text(world, size)?;
    put_quoted(world, to, text);
    Ok(Value::Ref(to))
}

/// How many bytes a String has in quotes.
fn quoted_size(world: &World, text: Value) -> u64
    requires { CellIsThere world.now.world.cells text }
    ensures { result ≡ length (quoted (bytes_of world.now.world.cells text)) }
{
    let mut count: u64 = 2;
    'bytes: for place in 0..text_size(world, text) {
        count += doubled_size(text_byte(world, text, place));
    }
    count
}

/// How many bytes a byte takes in quotes.
fn doubled_size(byte: u8) -> u64
    ensures size { result ≡ length (doubled (byte ∷ [])) }
    ensures small { result ≤ 2 }
{
    if byte == b'\'' { 2 } else { 1 }
}

/// Writes a part of a String into another text, from a place on.
fn put_part(world: &mut World, to: u32, at: u32, from: Value, part: Part)
    requires inside { at + part.count ≤ length (bytes_at world.old.world.cells to) }
    requires small { at + part.count < 2 ^ 32 }
    requires there { part.start + part.count ≤ length (bytes_of world.old.world.cells from) }
    requires short { part.start + part.count < 2 ^ 32 }
    requires apart { from ≢ value_is.Ref to }
    ensures { world.new ≡ filled world.old to at (bytes_in (bytes_of world.old.world.cells from) part) }
{
    'bytes: for place in 0..part.count {
        let byte = text_byte(world, from, part.start + place);
        world.set_byte(to, at + place, byte);
    }
}

/// Writes a String in quotes into a text of that size.
fn put_quoted(world: &mut World, to: u32, text: Value)
    requires inside { length (bytes_at world.old.world.cells to) ≡ length (quoted (bytes_of world.old.world.cells text)) }
    requires small { length (bytes_at world.old.world.cells to) < 2 ^ 32 }
    requires there { CellIsThere world.old.world.cells text }
    requires apart { text ≢ value_is.Ref to }
    ensures { world.new ≡ filled world.old to 0 (quoted (bytes_of world.old.world.cells text)) }
{
    let size = text_size(world, text);
    world.set_byte(to, 0, b'\'');
    let mut at: u32 = 1;
    'bytes: for place in 0..size {
        let byte = text_byte(world, text, place);
        at = put_doubled(world, to, at, byte);
    }
    world.set_byte(to, at, b'\'');
}

/// Writes a byte, a quote twice, and gives the place behind it.
fn put_doubled(world: &mut World, to: u32, at: u32, byte: u8) -> u32
    requires inside { at + length (doubled (byte ∷ [])) ≤ length (bytes_at world.old.world.cells to) }
    requires small { at + length (doubled (byte ∷ [])) < 2 ^ 32 }
    ensures world { world.new ≡ filled world.old to at (doubled (byte ∷ [])) }
    ensures place { result ≡ at + length (doubled (byte ∷ [])) }
{
    world.set_byte(to, at, byte);
    if byte != b'\'' {
        return at + 1;
    }
    world.set_byte(to, at + 1, byte);
    at + 2
}
