//! Tokens of one spelling.

ghost use Rattle.std.specs.Prelude.{◌≡◌, ◌<◌, length};
ghost use Rattle.ns_lex.specs.Piece.{PieceTakes};
ghost use Rattle.ns_lex.specs.Single as spec;

use crate::bytes::byte;
use crate::piece::{Cause, Piece};
use ns_tree::token::Kind;

/// The token of one spelling at the front, or that its byte begins none.
#[tactic(auto, unfolding(crate::specs::Single::single))]
pub fn single(text: &[u8]) -> Piece
    requires { 0 < length text.now }
    ensures value { result ≡ spec.single text.now }
    ensures within { PieceTakes (length text.now) result }
{
    match byte(text, 0) {
        b'(' => Piece::Token(Kind::Open, 1),
        b')' => Piece::Token(Kind::Close, 1),
        b'[' => Piece::Token(Kind::OpenBlock, 1),
        b']' => Piece::Token(Kind::CloseBlock, 1),
        b'{' => Piece::Token(Kind::OpenTuple, 1),
        b'}' => Piece::Token(Kind::CloseTuple, 1),
        b'.' => Piece::Token(Kind::Stop, 1),
        b';' => Piece::Token(Kind::Semi, 1),
        b'^' => Piece::Token(Kind::Caret, 1),
        b':' => {
            if byte(text, 1) == b':' && byte(text, 2) == b'=' {
                Piece::Token(Kind::SlotSet, 3)
            } else {
                Piece::Token(Kind::Colon, 1)
            }
        }
        _ => Piece::Fault(Cause::BadByte, 0),
    }
}
