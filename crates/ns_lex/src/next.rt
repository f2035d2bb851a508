//! What stands first in a text: the first byte says of which kind it is.

ghost use Rattle.std.specs.Prelude.{◌≡◌, ◌<◌, length, IfOk};
ghost use Rattle.ns_lex.specs.Next as spec;
ghost use Rattle.ns_lex.specs.Piece.{PieceTakes};

use crate::bytes::{byte, is_blank};
use crate::comment::{comment, remark};
use crate::number::number;
use crate::operator::operator;
use crate::piece::Piece;
use crate::quoted::quoted;
use crate::single::single;
use crate::symbol::symbol;
use crate::word::word;
use ns_base::no_memory::NoMemory;
use ns_base::spelling::{begins_name, is_digit, is_operator_byte};
use std::alloc::Global;

/// The piece at the front of a text that is not empty.
#[tactic(auto, unfolding(crate::specs::Next::next_piece))]
pub fn next_piece(alloc: Global, text: &[u8]) -> Result<Piece, NoMemory>
    requires { 0 < length text.now }
    ensures value { IfOk result (λ p. p ≡ spec.next_piece text.now) }
    ensures within { IfOk result (PieceTakes (length text.now)) }
{
    let b = byte(text, 0);
    if is_blank(b) {
        Ok(Piece::Gap(1))
    } else if b == b'"' {
        Ok(remark(text))
    } else if b == b'(' && byte(text, 1) == b'*' {
        Ok(comment(text))
    } else if begins_name(b) {
        word(alloc, text)
    } else if is_digit(b) {
        Ok(number(text))
    } else if b == b'\'' {
        quoted(alloc, text)
    } else if b == b'#' {
        symbol(alloc, text)
    } else if is_operator_byte(b) {
        operator(alloc, text)
    } else {
        Ok(single(text))
    }
}
