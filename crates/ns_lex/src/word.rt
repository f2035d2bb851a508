//! Identifiers, reserved words and keys.

ghost use Rattle.std.specs.Prelude.{◌≡◌, length, slice_index, true, IfOk};
ghost use Rattle.ns_base.specs.Spelling.{begins_name};
ghost use Rattle.ns_lex.specs.Piece.{PieceTakes};
ghost use Rattle.ns_lex.specs.Word as spec;

use crate::bytes::{ByteClass, byte, run};
use crate::piece::Piece;
use ns_base::no_memory::NoMemory;
use ns_base::text::Text;
use ns_tree::token::{Kind, Reserved};
use std::alloc::Global;

/// The reserved word of that text.
pub fn reserved(name: &[u8]) -> Option<Reserved>
    ensures { result ≡ spec.reserved name.now }
{
    if name == b"class".as_slice() {
        Some(Reserved::Class)
    } else if name == b"public".as_slice() {
        Some(Reserved::Public)
    } else if name == b"protected".as_slice() {
        Some(Reserved::Protected)
    } else if name == b"private".as_slice() {
        Some(Reserved::Private)
    } else if name == b"self".as_slice() {
        Some(Reserved::SelfWord)
    } else if name == b"super".as_slice() {
        Some(Reserved::Super)
    } else if name == b"outer".as_slice() {
        Some(Reserved::Outer)
    } else if name == b"true".as_slice() {
        Some(Reserved::True)
    } else if name == b"false".as_slice() {
        Some(Reserved::False)
    } else if name == b"nil".as_slice() {
        Some(Reserved::Nil)
    } else {
        None
    }
}

/// The identifier, the reserved word or the key at the front.
#[tactic(auto, unfolding(crate::specs::Word::word))]
pub fn word(alloc: Global, text: &[u8]) -> Result<Piece, NoMemory>
    requires { begins_name (slice_index text.now 0) ≡ true }
    ensures value { IfOk result (λ p. p ≡ spec.word text.now) }
    ensures within { IfOk result (PieceTakes (length text.now)) }
{
    let n = run(ByteClass::Name, text);
    if byte(text, n) == b':' && !(byte(text, n + 1) == b':' && byte(text, n + 2) == b'=') {
        if byte(text, n + 1) == b':' {
            return Ok(Piece::Token(Kind::SetKey(Text::of(alloc, &text[..n])?), n + 2));
        }
        return Ok(Piece::Token(Kind::Key(Text::of(alloc, &text[..n + 1])?), n + 1));
    }
    let kind = match reserved(&text[..n]) {
        Some(word) => Kind::Word(word),
        None => Kind::Ident(Text::of(alloc, &text[..n])?),
    };
    Ok(Piece::Token(kind, n))
}
