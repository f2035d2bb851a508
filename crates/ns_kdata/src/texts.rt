//! The rows of String.

ghost use Rattle.std.specs.Prelude.{◌≡◌, ◌≤◌, length, take};
ghost use Rattle.std.specs.Str.{bytes_eq};
ghost use Rattle.ns_world.specs.World.{IsWithin};
ghost use Rattle.ns_kdata.specs.Arguments.{CellIsThere, bytes_of};
ghost use Rattle.ns_kdata.specs.Outcome.{Gives};
ghost use Rattle.ns_kdata.specs.Texts as spec;

use crate::arguments::{
    is_text, part_in, place_in, text_byte, text_row, text_size as bytes_in, wrong_kind,
};
use crate::making::{copy_text, join_texts};
use ns_world::ending::Fault;
use ns_world::value::{Value, truth};
use ns_world::world::World;

/// `size`.
#[inline(always)]
pub fn text_size(world: &World, text: Value) -> Value
    requires { CellIsThere world.now.world.cells text }
    ensures { result ≡ spec.text_size world.now.world.cells text }
{
    Value::Int(i64::from(bytes_in(world, text)))
}

/// `at:`.
#[inline(always)]
pub fn text_at(world: &World, text: Value, place: Value) -> Result<Value, Fault>
    requires { CellIsThere world.now.world.cells text }
    ensures { result ≡ spec.text_at world.now.world.cells text place }
{
    let place = place_in(place, bytes_in(world, text))?;
    Ok(Value::Int(i64::from(text_byte(world, text, place))))
}

/// `copyFrom:to:`.
pub fn text_copy(world: &mut World, text: Value, first: Value, last: Value) -> Result<Value, Fault>
    requires room { world.old.world.limits.cells ≤ world.old.cell_room }
    requires there { CellIsThere world.old.world.cells text }
    requires within { IsWithin world.old.world }
    ensures { Gives (spec.text_copy world.old.world text first last) world.old result world.new }
{
    let part = part_in(first, last, bytes_in(world, text))?;
    copy_text(world, text, part)
}

/// `,`.
pub fn text_join(world: &mut World, text: Value, other: Value) -> Result<Value, Fault>
    requires room { world.old.world.limits.cells ≤ world.old.cell_room }
    requires there { CellIsThere world.old.world.cells text }
    requires other { CellIsThere world.old.world.cells other }
    requires within { IsWithin world.old.world }
    ensures { Gives (spec.text_join world.old.world text other) world.old result world.new }
{
    if !is_text(world, other) {
        return Err(wrong_kind());
    }
    join_texts(world, text, other)
}

/// `=`.
pub fn text_equal(world: &World, text: Value, other: Value) -> Value
    requires there { CellIsThere world.now.world.cells text }
    requires other { CellIsThere world.now.world.cells other }
    ensures { result ≡ spec.text_equal world.now.world.cells text other }
{
    if !is_text(world, other) {
        return Value::False;
    }
    truth(are_equal(world, text, other))
}

/// Whether two Strings have the same bytes.
#[tactic(auto, using(crate::proofs::Comparing::equal_no, crate::proofs::Comparing::other_size))]
fn are_equal(world: &World, text: Value, other: Value) -> bool
    requires there { CellIsThere world.now.world.cells text }
    requires other { CellIsThere world.now.world.cells other }
    ensures { result ≡ bytes_eq (bytes_of world.now.world.cells text) (bytes_of world.now.world.cells other) }
{
    let size = bytes_in(world, text);
    if size != bytes_in(world, other) {
        return false;
    }
    let start = same_front(world, text, other, size);
    'bytes: for place in start..size {
        if text_byte(world, text, place) != text_byte(world, other, place) {
            return false;
        }
    }
    true
}

/// `<`.
pub fn text_less(world: &World, text: Value, other: Value) -> Result<Value, Fault>
    requires there { CellIsThere world.now.world.cells text }
    requires other { CellIsThere world.now.world.cells other }
    ensures { result ≡ spec.text_less world.now.world.cells text other }
{
    if !is_text(world, other) {
        return Err(wrong_kind());
    }
    Ok(truth(comes_before(world, text, other)))
}

/// Whether a String comes before another in the order of their bytes.
fn comes_before(world: &World, text: Value, other: Value) -> bool
    requires there { CellIsThere world.now.world.cells text }
    requires other { CellIsThere world.now.world.cells other }
    ensures { result ≡ spec.is_before (bytes_of world.now.world.cells text) (bytes_of world.now.world.cells other) }
{
    let size = bytes_in(world, text);
    let others = bytes_in(world, other);
    let least = size.min(others);
    let start = same_front(world, text, other, least);
    'bytes: for place in start..least {
        let byte = text_byte(world, text, place);
        let against = text_byte(world, other, place);
        if byte != against {
            return byte < against;
        }
    }
    size < others
}

/// A number of bytes at the front of two Strings that are the same, at most so many: those of the
/// rows of eight before the first that differs.
fn same_front(world: &World, text: Value, other: Value, least: u32) -> u32
    requires text { least ≤ length (bytes_of world.now.world.cells text) }
    requires other { least ≤ length (bytes_of world.now.world.cells other) }
    ensures within { result ≤ least }
    ensures same { take result (bytes_of world.now.world.cells text) ≡ take result (bytes_of world.now.world.cells other) }
{
    let rows = least / 8;
    'rows: for row in 0..rows {
        if text_row(world, text, row) != text_row(world, other, row) {
            return 8 * row;
        }
    }
    8 * rows
}
