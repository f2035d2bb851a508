//! How deep the brackets of a source nest.

ghost use Rattle.std.specs.Prelude.{◌≡◌, ◌≤◌};
ghost use Rattle.ns_tree.specs.Deep.{opens, open_behind, deep};
ghost use Rattle.ns_tree.specs.Tokens.{kinds};

use crate::token::{Kind, Token};

/// The most brackets that are open at once.
pub const MOST_BRACKETS: usize = 100;

/// The number of the first token that opens bracket 101; None where no token does. A closing bracket
/// where none is open leaves none open.
pub fn deep(tokens: &[Token]) -> Option<usize>
    ensures { result ≡ deep (kinds tokens.now) }
{
    let mut before = 0;
    for (at, token) in tokens.iter().enumerate() {
        if opens(&token.kind) && before >= MOST_BRACKETS {
            return Some(at);
        }
        before = open_behind(before, &token.kind);
    }
    None
}

fn opens(kind: &Kind) -> bool
    ensures { result ≡ opens kind.now }
{
    match kind {
        Kind::Open | Kind::OpenBlock | Kind::OpenTuple => true,
        _ => false,
    }
}

/// How many brackets are open behind a token, where so many are open before it.
fn open_behind(before: usize, kind: &Kind) -> usize
    requires { before ≤ MOST_BRACKETS }
    ensures { result ≡ open_behind before kind.now }
{
    match kind {
        Kind::Open | Kind::OpenBlock | Kind::OpenTuple => before + 1,
        Kind::Close | Kind::CloseBlock | Kind::CloseTuple => before.saturating_sub(1),
        _ => before,
    }
}
