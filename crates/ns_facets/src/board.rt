//! The board that applications share, and its rows.

ghost use Rattle.std.specs.Prelude.{◌≡◌, ◌<◌, replicate};
ghost use Rattle.ns_facets.specs.Board as spec;
ghost use Rattle.ns_facets.specs.declared.board.Plain.TheVariants as plain_is;

use ns_kdata::arguments::{place_in, wrong_kind};
use ns_world::ending::Fault;
use ns_world::value::Value;

/// A value that no cell belongs to.
#[derive(Clone, Copy, PartialEq, Eq)]
pub enum Plain {
    Nil,
    True,
    False,
    Int(i64),
}

/// The board has 64 places.
#[derive(Clone, Copy)]
pub struct Board {
    pub places: [Plain; 64],
}

impl Board {
    /// A board of nils.
    pub fn new() -> Board
        ensures { result.places ≡ replicate 64 plain_is.Nil }
    {
        Board {
            places: [Plain::Nil; 64],
        }
    }
}

/// `at:`: what a place holds, counted from 1.
pub fn board_at(board: &Board, place: Value) -> Result<Value, Fault>
    ensures { result ≡ spec.board_at board.now place }
{
    let place = place_in(place, 64)?;
    Ok(value_of(board.places[place as usize]))
}

/// `at:put:`: a place takes nil, a boolean or an Integer.
pub fn board_put(board: &mut Board, place: Value, value: Value) -> Result<Value, Fault>
    ensures answer { result ≡ spec.board_put place value }
    ensures board { board.new ≡ spec.board_with board.old place value }
{
    let place = place_in(place, 64)?;
    let plain = plain_of(value)?;
    board.places[place as usize] = plain;
    Ok(value)
}

/// The value that a place holds.
fn value_of(plain: Plain) -> Value
    ensures { result ≡ spec.value_of plain }
{
    match plain {
        Plain::Nil => Value::Nil,
        Plain::True => Value::True,
        Plain::False => Value::False,
        Plain::Int(number) => Value::Int(number),
    }
}

/// What a place holds of a value; WrongKind where it can't hold it.
fn plain_of(value: Value) -> Result<Plain, Fault>
    ensures { result ≡ spec.plain_of value }
{
    match value {
        Value::Nil => Ok(Plain::Nil),
        Value::True => Ok(Plain::True),
        Value::False => Ok(Plain::False),
        Value::Int(number) => Ok(Plain::Int(number)),
        _ => Err(wrong_kind()),
    }
}
