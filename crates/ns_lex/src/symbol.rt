//! Symbols.

ghost use Rattle.std.specs.Prelude.{◌≡◌, ◌≤◌, ◌<◌, length, false, IfOk};
ghost use Rattle.ns_lex.specs.Piece.{PieceTakes};
ghost use Rattle.ns_lex.specs.Symbol as spec;

use crate::bytes::{ByteClass, byte, run};
use crate::operator::operator_len;
use crate::piece::{Cause, Piece};
use ns_base::no_memory::NoMemory;
use ns_base::spelling::{begins_name, is_digit, is_operator_byte};
use ns_base::text::Text;
use ns_tree::token::Kind;
use std::alloc::Global;

/// How long the keys at the front are together; 0 for none.
fn keys_from(text: &[u8]) -> usize
    ensures value { result ≡ spec.keys_from 0 false 0 text.now }
    ensures within { result ≤ length text.now }
{
    let mut end = 0;
    let mut inside = false;
    let mut at = 0;
    for b in text {
        if inside && *b == b':' {
            at += 1;
            end = at;
            inside = false;
        } else if begins_name(*b) || (inside && is_digit(*b)) {
            at += 1;
            inside = true;
        } else {
            return end;
        }
    }
    end
}

/// How long the selector at the front is; 0 for none.
#[tactic(auto, unfolding(crate::specs::Symbol::selector_len))]
fn selector_len(text: &[u8]) -> usize
    ensures value { result ≡ spec.selector_len text.now }
    ensures within { result ≤ length text.now }
{
    if is_operator_byte(byte(text, 0)) {
        return operator_len(text);
    }
    if !begins_name(byte(text, 0)) {
        return 0;
    }
    let n = keys_from(text);
    if n == 0 {
        run(ByteClass::Name, text)
    } else {
        n
    }
}

/// The symbol at the front, or that its `#` is no token.
#[tactic(auto, unfolding(crate::specs::Symbol::symbol))]
pub fn symbol(alloc: Global, text: &[u8]) -> Result<Piece, NoMemory>
    requires { 0 < length text.now }
    ensures value { IfOk result (λ p. p ≡ spec.symbol text.now) }
    ensures within { IfOk result (PieceTakes (length text.now)) }
{
    let selector = &text[1..];
    let n = selector_len(selector);
    if n == 0 {
        return Ok(Piece::Fault(Cause::BadByte, 0));
    }
    Ok(Piece::Token(Kind::Symbol(Text::of(alloc, &selector[..n])?), n + 1))
}
