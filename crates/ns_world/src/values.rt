//! Values in a row of words, read and written where they stand. Most are Integers or refer to cells; the kinds of the others are
//! told apart by a jump, in code of its own.

ghost use Rattle.std.specs.Prelude.{◌≡◌, ◌<◌, length, slice_set};
ghost use Rattle.std.specs.Vec.{vec_capacity};
ghost use Rattle.ns_world.specs.Words.{value_at, word_of};

use crate::value::Value;
use crate::word::{Word, value_in, word_of};

/// The value of the word of that place.
#[inline(always)]
pub fn value_at(words: &[Word], at: usize) -> Value
    requires { at < length words.now }
    ensures { result ≡ value_at words.now at }
{
    match words[at] {
        Word::Int(number) => Value::Int(number),
        _ => other_value_at(words, at),
    }
}

/// The same by a second question, each of which has two answers: so no jump tells the kinds of words apart.
#[inline(always)]
fn other_value_at(words: &[Word], at: usize) -> Value
    requires { at < length words.now }
    ensures { result ≡ value_at words.now at }
{
    match words[at] {
        Word::Ref(number) => Value::Ref(number),
        _ => any_value_at(words, at),
    }
}

/// The same for any value.
#[inline(never)]
fn any_value_at(words: &[Word], at: usize) -> Value
    requires { at < length words.now }
    ensures { result ≡ value_at words.now at }
{
    value_in(words[at])
}

/// Writes the word of a value.
#[inline(always)]
pub fn set_value(words: &mut Vec<Word>, at: usize, value: Value)
    requires { at < length words.old.items }
    ensures items { words.new.items ≡ slice_set words.old.items at (word_of value) }
    ensures capacity { vec_capacity words.new ≡ vec_capacity words.old }
{
    match value {
        Value::Int(number) => words[at] = Word::Int(number),
        Value::Ref(number) => words[at] = Word::Ref(number),
        other => words[at] = word_of(other),
    }
}
