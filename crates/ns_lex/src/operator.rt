//! Operators.

ghost use Rattle.std.specs.Prelude.{◌≡◌, ◌≤◌, ◌<◌, length, slice_index, true, IfOk};
ghost use Rattle.ns_base.specs.Spelling.{is_operator_byte};
ghost use Rattle.ns_lex.specs.Operator as spec;
ghost use Rattle.ns_lex.specs.Piece.{PieceTakes};

use crate::bytes::{ByteClass, byte, run};
use crate::piece::Piece;
use ns_base::no_memory::NoMemory;
use ns_base::text::Text;
use ns_tree::token::Kind;
use std::alloc::Global;

/// How long the operator at the front is; 0 for none.
#[tactic(auto, unfolding(crate::specs::Operator::operator_len))]
pub fn operator_len(text: &[u8]) -> usize
    ensures value { result ≡ spec.operator_len text.now }
    ensures within { result ≤ length text.now }
    ensures moves { is_operator_byte (slice_index text.now 0) ≡ true → 0 < result }
{
    if byte(text, 0) == b'<' && byte(text, 1) == b':' {
        2
    } else {
        run(ByteClass::Operator, text)
    }
}

/// The operator at the front.
#[tactic(auto, unfolding(crate::specs::Operator::operator))]
pub fn operator(alloc: Global, text: &[u8]) -> Result<Piece, NoMemory>
    requires { is_operator_byte (slice_index text.now 0) ≡ true }
    ensures value { IfOk result (λ p. p ≡ spec.operator text.now) }
    ensures within { IfOk result (PieceTakes (length text.now)) }
{
    let n = operator_len(text);
    Ok(Piece::Token(Kind::Oper(Text::of(alloc, &text[..n])?), n))
}
