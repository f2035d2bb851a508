//! Strings.

ghost use Rattle.std.specs.Prelude.{◌≡◌, ◌≤◌, ◌<◌, ◌+◌, length, false, [], IfOk, IfSome};
ghost use Rattle.ns_lex.specs.Piece.{PieceTakes};
ghost use Rattle.ns_lex.specs.Quoted as spec;

use crate::piece::{Cause, Piece};
use ns_base::no_memory::NoMemory;
use ns_base::text::Text;
use ns_tree::token::Kind;
use std::alloc::Global;

/// What a string that began before these bytes holds, and how long it is with both its quotes; none
/// where it has no end.
fn quoted_from(alloc: Global, text: &[u8]) -> Result<Option<(Text, usize)>, NoMemory>
    ensures value { IfOk result (λ r. r ≡ spec.quoted_from false [] 1 text.now) }
    ensures within { IfOk result (λ r. IfSome r (λ p. (2 ≤ p.1) × (p.1 ≤ length text.now + 1))) }
{
    let mut held = Vec::new(alloc);
    let mut after_quote = false;
    let mut at = 1;
    for b in text {
        if after_quote && *b != b'\'' {
            return Ok(Some((Text::from_vec(held), at)));
        }
        if !after_quote && *b == b'\'' {
            after_quote = true;
        } else {
            held.push(*b)?;
            after_quote = false;
        }
        at += 1;
    }
    if after_quote {
        Ok(Some((Text::from_vec(held), at)))
    } else {
        Ok(None)
    }
}

/// The string at the front, or that it has no end.
#[tactic(auto, unfolding(crate::specs::Quoted::quoted))]
pub fn quoted(alloc: Global, text: &[u8]) -> Result<Piece, NoMemory>
    requires { 0 < length text.now }
    ensures value { IfOk result (λ p. p ≡ spec.quoted text.now) }
    ensures within { IfOk result (PieceTakes (length text.now)) }
{
    match quoted_from(alloc, &text[1..])? {
        None => Ok(Piece::Fault(Cause::UnclosedString, 0)),
        Some((held, n)) => Ok(Piece::Token(Kind::Str(held), n)),
    }
}
