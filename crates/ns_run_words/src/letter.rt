//! The letter of a line of actors, which stands in front of the files.

ghost use Rattle.std.specs.Prelude.{◌≡◌, ◌≤◌, IfSome, option_map};
ghost use Rattle.ns_run_words.specs.Letter as spec;

use crate::number::{integer, number, takes_one};

/// How many actors there are, and the selector and the argument of the letter to the first of them.
#[derive(Clone, Copy)]
pub struct Letter<'a> {
    pub count: u32,
    pub sel: &'a [u8],
    pub number: i64,
}

/// The letter that three words are.
pub fn letter_in<'a>(count: &[u8], sel: &'a [u8], argument: &[u8]) -> Option<Letter<'a>>
    ensures is { option_map spec.letter_seen result ≡ spec.letter_in count.now sel.now argument.now }
    ensures may { IfSome result (λ letter. spec.MayAct letter.count letter.sel.now) }
{
    match number(16, count) {
        Some(count) => letter_of(count as u32, sel, integer(argument)),
        None => None,
    }
}

/// The letter of that selector and that argument to the first of so many actors.
fn letter_of(count: u32, sel: &[u8], argument: Option<i64>) -> Option<Letter<'_>>
    requires some { 1 ≤ count }
    requires few { count ≤ 16 }
    ensures is { option_map spec.letter_seen result ≡ spec.letter_of count sel.now argument }
    ensures may { IfSome result (λ letter. spec.MayAct letter.count letter.sel.now) }
{
    match argument {
        Some(number) => {
            if takes_one(sel) {
                Some(Letter { count, sel, number })
            } else {
                None
            }
        }
        None => None,
    }
}
