//! Cuts a whole source into tokens.

ghost use Rattle.std.specs.Prelude.{◌≡◌, ◌≢◌, ◌≤◌, length, drop, IfOk, MatchResult};
ghost use Rattle.ns_lex.specs.Lexes.{Lexes, StopsAt};
ghost use Rattle.ns_lex.specs.Scan as spec;
ghost use Rattle.ns_lex.specs.declared.fault.LexFault.TheVariants.{Memory};

use crate::fault::{LexFault, fault_at};
use crate::next::next_piece;
use crate::piece::Piece;
use ns_tree::token::Token;
use std::alloc::Global;

/// The source from a place on.
fn rest_of(source: &[u8], at: usize) -> &[u8]
    requires { at ≤ length source.now }
    ensures { result.now ≡ drop at source.now }
{
    &source[at..]
}

/// The tokens of a source of at most 1,048,576 bytes, or its first fault, or that no memory was found.
pub fn lex(alloc: Global, source: &[u8]) -> Result<Vec<Token>, LexFault>
    requires { length source.now ≤ 1048576 }
    ensures exact { MatchResult result (λ tokens. spec.scan source.now ≡ Ok tokens.items) (λ fault. fault ≢ Memory → spec.scan source.now ≡ Err fault) }
    ensures cuts { MatchResult result (λ tokens. Lexes source.now tokens.items) (λ fault. StopsAt source.now fault) }
    ensures in_order { IfOk result (λ tokens. spec.InOrder 0 (length source.now) tokens.items) }
    ensures count { IfOk result (λ tokens. length tokens.items ≤ length source.now) }
{
    let mut tokens = Vec::new(alloc);
    let mut at = 0;
    'pieces: while at < source.len() {
        match next_piece(alloc, rest_of(source, at))? {
            Piece::Gap(n) => {
                at += n;
            }
            Piece::Token(kind, n) => {
                let end = at + n;
                tokens.push(Token {
                    kind,
                    start: at as u32,
                    end: end as u32,
                })?;
                at = end;
            }
            Piece::Fault(cause, n) => {
                return Err(fault_at(cause, (at + n) as u32));
            }
        }
    }
    Ok(tokens)
}
