//! Places of bytes and of tokens in a source.

ghost use Rattle.std.specs.Prelude.{◌≡◌, ◌≤◌, ◌<◌, ◌+◌, ◌^◌, IfOk, length};
ghost use Rattle.ns_lex.specs.Scan.{InOrder};
ghost use Rattle.ns_load.specs.Place as spec;

use ns_base::items::Items;
use ns_base::no_memory::NoMemory;
use ns_base::place::Place;
use ns_tree::token::Token;
use std::alloc::Global;

/// Where the byte at that offset stands; behind the last byte, the end of the source.
pub fn place_of(file: u32, source: &[u8], offset: usize) -> Place
    requires { length source.now ≤ 1048576 }
    ensures { result ≡ spec.place_of file source.now offset }
{
    let first = Place {
        file,
        line: 1,
        col: 1,
    };
    behind(&source[..offset.min(source.len())], first)
}

/// The place of each token, and last that of the end. The source is gone through once.
#[tactic(auto, using(crate::proofs::Places::order_within))]
pub fn marks(
    alloc: Global,
    file: u32,
    source: &[u8],
    tokens: &[Token],
) -> Result<Items<Place>, NoMemory>
    requires short { length source.now ≤ 1048576 }
    requires in_order { InOrder 0 (length source.now) tokens.now }
    ensures { IfOk result (λ marks. marks ≡ spec.marks file source.now tokens.now) }
{
    let mut marks = Vec::new(alloc);
    let mut at = 0;
    let mut place = place_of(file, source, 0);
    for token in tokens {
        let start = token.start as usize;
        place = moved(file, source, at, start, place);
        at = start;
        marks.push(place)?;
    }
    marks.push(moved(file, source, at, source.len(), place))?;
    Ok(Items::from_vec(marks))
}

/// The place of a byte, from that of an earlier one.
#[tactic(auto, using(crate::proofs::Places::later, crate::proofs::Places::line_of, crate::proofs::Places::col_of))]
fn moved(file: u32, source: &[u8], from: usize, to: usize, place: Place) -> Place
    requires short { length source.now ≤ 1048576 }
    requires within { to ≤ length source.now }
    requires later { from ≤ to }
    requires here { place ≡ spec.place_of file source.now from }
    ensures { result ≡ spec.place_of file source.now to }
{
    let (_, left) = source.split_at(from);
    let (between, _) = left.split_at(to - from);
    behind(between, place)
}

/// The place behind a text.
fn behind(text: &[u8], start: Place) -> Place
    requires lines { length text.now + start.line < 2 ^ 32 }
    requires columns { length text.now + start.col < 2 ^ 32 }
    ensures { result ≡ spec.behind text.now start }
{
    let Place {
        file,
        mut line,
        mut col,
    } = start;
    for b in text {
        if *b == b'\n' {
            line += 1;
            col = 1;
        } else {
            col += 1;
        }
    }
    Place { file, line, col }
}
