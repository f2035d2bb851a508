//! Cuts a source into its tokens and comments.

ghost use Rattle.std.specs.Prelude.{◌≡◌, ◌≤◌, ◌∷◌, ◌++◌, [], IfOk, OnOk, drop, length};
ghost use Rattle.ns_format.specs.Pieces as spec;

use crate::piece::{Gap, Mark, Piece};
use ns_base::no_memory::NoMemory;
use ns_base::text::Text;
use ns_lex::bytes::{byte, is_blank};
use ns_lex::next::next_piece;
use ns_lex::piece::Piece as Lexed;
use std::alloc::Global;

/// The gap, and a line feed behind it.
fn fed(before: Gap) -> Gap
    ensures { result ≡ spec.fed before }
{
    match before {
        Gap::First => Gap::First,
        Gap::Nothing => Gap::Line,
        Gap::Blanks => Gap::Line,
        Gap::Line => Gap::Lines,
        Gap::Lines => Gap::Lines,
    }
}

/// The gap in which something stands.
fn apart(before: Gap) -> Gap
    ensures { result ≡ spec.apart before }
{
    match before {
        Gap::Nothing => Gap::Blanks,
        _ => before,
    }
}

/// The gap, and a blank byte behind it.
fn with_blank(b: u8, before: Gap) -> Gap
    ensures { result ≡ spec.with_blank b before }
{
    if b == b'\n' {
        fed(before)
    } else {
        apart(before)
    }
}

/// Puts a piece behind the others.
fn put(
    alloc: Global,
    pieces: &mut Vec<Piece>,
    gap: Gap,
    mark: Mark,
    text: &[u8],
) -> Result<(), NoMemory>
    ensures { OnOk result (pieces.new.items ≡ pieces.old.items ++ spec.piece_of gap mark text.now ∷ []) }
{
    let text = Text::of(alloc, text)?;
    pieces.push(Piece { gap, mark, text })?;
    Ok(())
}

/// Puts what is no token behind the others, if it is a comment. Answers the gap behind it.
fn put_part(
    alloc: Global,
    pieces: &mut Vec<Piece>,
    before: Gap,
    part: &[u8],
) -> Result<Gap, NoMemory>
    ensures behind { IfOk result (λ behind. behind ≡ spec.behind_part part.now before) }
    ensures pieces { OnOk result (pieces.new.items ≡ pieces.old.items ++ spec.comment_in part.now before) }
{
    let b = byte(part, 0);
    if is_blank(b) {
        return Ok(with_blank(b, before));
    }
    put(alloc, pieces, apart(before), Mark::Comment, part)?;
    Ok(Gap::Blanks)
}

/// The source from a place on.
fn rest_of(source: &[u8], at: usize) -> &[u8]
    requires { at ≤ length source.now }
    ensures { result.now ≡ drop at source.now }
{
    &source[at..]
}

/// The tokens and comments of a source in their order, up to its first fault.
pub fn pieces(alloc: Global, source: &[u8]) -> Result<Vec<Piece>, NoMemory>
    ensures { IfOk result (λ pieces. pieces.items ≡ spec.pieces source.now) }
{
    let mut pieces = Vec::new(alloc);
    let mut before = Gap::First;
    let mut at = 0;
    'pieces: while at < source.len() {
        let rest = rest_of(source, at);
        match next_piece(alloc, rest)? {
            Lexed::Gap(n) => {
                before = put_part(alloc, &mut pieces, before, &rest[..n])?;
                at += n;
            }
            Lexed::Token(kind, n) => {
                put(alloc, &mut pieces, before, Mark::Token(kind), &rest[..n])?;
                before = Gap::Nothing;
                at += n;
            }
            Lexed::Fault(_, _) => return Ok(pieces),
        }
    }
    Ok(pieces)
}
