//! Numbers, which are runs of decimal digits.

ghost use Rattle.std.specs.Prelude.{◌≡◌, length, slice_index, true, All};
ghost use Rattle.ns_base.specs.Spelling.{is_digit};
ghost use Rattle.ns_lex.specs.Piece.{PieceTakes};
ghost use Rattle.ns_lex.specs.Number as spec;

use crate::bytes::{ByteClass, byte, run};
use crate::piece::{Cause, Piece};
use ns_base::spelling::{begins_name, is_digit};
use ns_tree::token::Kind;

/// The greatest number that a source can hold, which a minus makes the least Integer.
const GREATEST: u64 = 9223372036854775808;

/// The number that these digits write, if it is not above the greatest.
fn value(digits: &[u8]) -> Option<u64>
    requires { All (λ b. is_digit b ≡ true) digits.now }
    ensures { result ≡ spec.at_most_greatest (spec.value digits.now) }
{
    let mut value = 0;
    for b in digits {
        let digit = (*b - b'0') as u64;
        if value > (GREATEST - digit) / 10 {
            return None;
        }
        value = 10 * value + digit;
    }
    Some(value)
}

/// The number at the front, or the fault that stands there.
#[tactic(auto, unfolding(crate::specs::Number::number))]
pub fn number(text: &[u8]) -> Piece
    requires { is_digit (slice_index text.now 0) ≡ true }
    ensures value { result ≡ spec.number text.now }
    ensures within { PieceTakes (length text.now) result }
{
    let n = run(ByteClass::Digit, text);
    if begins_name(byte(text, n)) || (byte(text, n) == b'.' && is_digit(byte(text, n + 1))) {
        return Piece::Fault(Cause::BadByte, n);
    }
    match value(&text[..n]) {
        None => Piece::Fault(Cause::BigNumber, 0),
        Some(value) => Piece::Token(Kind::Number(value), n),
    }
}
