//! Bytes in words of eight.

ghost use Rattle.std.specs.Prelude.{◌≡◌, ◌++◌, drop};
ghost use Rattle.std.specs.List.{slice_index_or};
ghost use Rattle.ns_world.specs.Words.{eight};

/// The first eight bytes of a row and another behind it, filled up with 0, and what is left of
/// the two.
pub fn cut_word<'a>(first: &'a [u8], second: &'a [u8]) -> ([u8; 8], &'a [u8], &'a [u8])
    ensures word { result.0 ≡ eight (first.now ++ second.now) }
    ensures rest { result.1.now ++ result.2.now ≡ drop 8 (first.now ++ second.now) }
{
    match first {
        [a, b, c, d, e, f, g, h, rest @ ..] => ([*a, *b, *c, *d, *e, *f, *g, *h], rest, second),
        _ => cut_seam(first, second),
    }
}

/// The same where the first row may end within the word.
fn cut_seam<'a>(first: &'a [u8], second: &'a [u8]) -> ([u8; 8], &'a [u8], &'a [u8])
    ensures word { result.0 ≡ eight (first.now ++ second.now) }
    ensures rest { result.1.now ++ result.2.now ≡ drop 8 (first.now ++ second.now) }
{
    let word = [
        byte_of_two(first, second, 0),
        byte_of_two(first, second, 1),
        byte_of_two(first, second, 2),
        byte_of_two(first, second, 3),
        byte_of_two(first, second, 4),
        byte_of_two(first, second, 5),
        byte_of_two(first, second, 6),
        byte_of_two(first, second, 7),
    ];
    (
        word,
        behind(first, 8),
        behind(second, 8 - first.len().min(8)),
    )
}

/// The bytes of a row from a place on.
fn behind(bytes: &[u8], place: usize) -> &[u8]
    ensures { result.now ≡ drop place bytes.now }
{
    let (_, rest) = bytes.split_at(place.min(bytes.len()));
    rest
}

/// The byte of that place in a row and another behind it, 0 past both.
fn byte_of_two(first: &[u8], second: &[u8], place: usize) -> u8
    ensures { result ≡ slice_index_or (first.now ++ second.now) place 0 }
{
    if place < first.len() {
        return first[place];
    }
    match second.get(place - first.len()) {
        Some(byte) => *byte,
        None => 0,
    }
}
