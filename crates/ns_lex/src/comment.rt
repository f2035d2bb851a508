//! Comments: nested ones between brackets with stars, and remarks between double quotes.

ghost use Rattle.std.specs.Prelude.{◌≡◌, ◌≤◌, ◌<◌, ◌+◌, length, IfSome};
ghost use Rattle.ns_lex.specs.Comment as spec;
ghost use Rattle.ns_lex.specs.Piece.{PieceTakes};
ghost use Rattle.ns_lex.specs.declared.comment.Last.TheVariants as last;

use crate::bytes::byte;
use crate::piece::{Cause, Piece};

/// What the byte before may begin.
#[derive(Clone, Copy)]
pub enum Last {
    /// Nothing: it is another byte, or the second byte of a mark.
    Plain,
    /// The mark that opens a comment.
    Paren,
    /// The mark that closes a comment.
    Star,
}

/// What this byte may begin.
fn after(b: u8) -> Last
    ensures { result ≡ spec.after b }
{
    match b {
        b'(' => Last::Paren,
        b'*' => Last::Star,
        _ => Last::Plain,
    }
}

/// How long a comment is whose opening mark stands before these bytes; none where it has no end.
fn comment_from(text: &[u8]) -> Option<usize>
    ensures value { result ≡ spec.comment_from 0 last.Plain 2 text.now }
    ensures within { IfSome result (λ n. (2 ≤ n) × (n ≤ length text.now + 2)) }
{
    let mut depth = 0usize;
    let mut last = Last::Plain;
    let mut at = 2;
    for b in text {
        at += 1;
        match last {
            Last::Paren if *b == b'*' => {
                depth += 1;
                last = Last::Plain;
            }
            Last::Star if *b == b')' => {
                if depth == 0 {
                    return Some(at);
                }
                depth -= 1;
                last = Last::Plain;
            }
            _ => {
                last = after(*b);
            }
        }
    }
    None
}

/// The nested comment at the front, or that it has no end.
#[tactic(auto, unfolding(crate::specs::Comment::comment))]
pub fn comment(text: &[u8]) -> Piece
    requires { 1 < length text.now }
    ensures value { result ≡ spec.comment text.now }
    ensures within { PieceTakes (length text.now) result }
{
    match comment_from(&text[2..]) {
        None => Piece::Fault(Cause::UnclosedComment, 0),
        Some(n) => Piece::Gap(n),
    }
}

/// How many bytes come before the next double quote.
fn remark_len(text: &[u8]) -> usize
    ensures value { result ≡ spec.remark_len text.now }
    ensures within { result ≤ length text.now }
{
    let mut n = 0;
    while n < text.len() && text[n] != b'"' {
        n += 1;
    }
    n
}

/// The remark at the front, or that it has no end.
#[tactic(auto, unfolding(crate::specs::Comment::remark))]
pub fn remark(text: &[u8]) -> Piece
    requires { 0 < length text.now }
    ensures value { result ≡ spec.remark text.now }
    ensures within { PieceTakes (length text.now) result }
{
    let n = remark_len(&text[1..]);
    if byte(text, n + 1) == b'"' {
        Piece::Gap(n + 2)
    } else {
        Piece::Fault(Cause::UnclosedComment, 0)
    }
}
