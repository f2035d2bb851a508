//! Classes of bytes, and looking at the front of a text.

ghost use Rattle.std.specs.Prelude.{◌≡◌, ◌≢◌, ◌<◌, ◌≤◌, length, slice_index, true};
ghost use Rattle.std.specs.List.{prefix_len};
ghost use Rattle.ns_lex.specs.Bytes as spec;

use ns_base::spelling::{goes_on_name, is_digit, is_operator_byte};

/// The bytes of which a token may have a run.
#[derive(Clone, Copy)]
pub enum ByteClass {
    Digit,
    Name,
    Operator,
}

/// Whether the byte is a tab, a line feed, a form feed, a carriage return or a space.
pub fn is_blank(b: u8) -> bool
    ensures { result ≡ spec.is_blank b }
{
    b == 9 || b == 10 || b == 12 || b == 13 || b == 32
}

/// Whether the byte is of the class.
pub fn is_in(class: ByteClass, b: u8) -> bool
    ensures { result ≡ spec.is_in class b }
{
    match class {
        ByteClass::Digit => is_digit(b),
        ByteClass::Name => goes_on_name(b),
        ByteClass::Operator => is_operator_byte(b),
    }
}

/// The byte at a place, or 0 past the end.
pub fn byte(text: &[u8], at: usize) -> u8
    ensures value { result ≡ slice_index text.now at }
    ensures within { result ≢ 0 → at < length text.now }
{
    if at < text.len() { text[at] } else { 0 }
}

/// How many bytes of the class stand at the front.
pub fn run(class: ByteClass, text: &[u8]) -> usize
    ensures value { result ≡ prefix_len (spec.is_in class) text.now }
    ensures within { result ≤ length text.now }
    ensures moves { spec.is_in class (slice_index text.now 0) ≡ true → 0 < length text.now → 0 < result }
{
    let mut n = 0;
    while n < text.len() && is_in(class, text[n]) {
        n += 1;
    }
    n
}
