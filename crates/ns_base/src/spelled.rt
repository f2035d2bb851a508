//! What names may look like.

ghost use Rattle.std.specs.Prelude.{◌≡◌, false, ◌||◌, codes};
ghost use Rattle.std.specs.List.{list_all};
ghost use Rattle.std.specs.Str.{bytes_eq};
ghost use Rattle.ns_base.specs.Spelling.{goes_on_name, is_identifier, are_keys, is_keyword, is_operator_byte, is_operator, is_selector, is_reserved};

use crate::spelling::{begins_name, goes_on_name, is_operator_byte};

/// Whether this can be a selector: an identifier, an operator or keys.
pub fn is_selector(text: &[u8]) -> bool
    ensures { result ≡ is_selector text.now }
{
    is_identifier(text) || is_operator(text) || is_keyword(text)
}

/// Whether this is an identifier, of letters, digits and underscores.
pub fn is_identifier(text: &[u8]) -> bool
    ensures { result ≡ is_identifier text.now }
{
    match text {
        [] => false,
        [first, rest @ ..] => begins_name(*first) && all_go_on(rest),
    }
}

fn all_go_on(bytes: &[u8]) -> bool
    ensures { result ≡ list_all goes_on_name bytes.now }
{
    bytes.iter().all(|byte| goes_on_name(*byte))
}

/// One or more identifiers, each with a colon behind it.
fn is_keyword(text: &[u8]) -> bool
    ensures { result ≡ is_keyword text.now }
{
    !text.is_empty() && are_keys(text)
}

fn are_keys(text: &[u8]) -> bool
    ensures { result ≡ are_keys false text.now }
{
    let mut begun = false;
    'bytes: for byte in text {
        if begun && *byte == b':' {
            begun = false;
        } else if begun && !goes_on_name(*byte) {
            return false;
        } else if !begun && !begins_name(*byte) {
            return false;
        } else {
            begun = true;
        }
    }
    !begun
}

fn is_operator(text: &[u8]) -> bool
    ensures { result ≡ is_operator text.now }
{
    match text {
        [] => false,
        _ => all_are_operator_bytes(text) || text == b"<:".as_slice(),
    }
}

fn all_are_operator_bytes(text: &[u8]) -> bool
    ensures { result ≡ list_all is_operator_byte text.now }
{
    text.iter().all(|byte| is_operator_byte(*byte))
}

/// Whether this word isn't an identifier.
pub fn is_reserved(word: &[u8]) -> bool
    ensures { result ≡ is_reserved word.now }
{
    is_declaring(word) || is_naming(word) || is_value(word)
}

fn is_declaring(word: &[u8]) -> bool
    ensures { result ≡ (bytes_eq word.now (codes "class")
        || (bytes_eq word.now (codes "public") || (bytes_eq word.now (codes "protected") || bytes_eq word.now (codes "private")))) }
{
    word == b"class".as_slice()
        || word == b"public".as_slice()
        || word == b"protected".as_slice()
        || word == b"private".as_slice()
}

fn is_naming(word: &[u8]) -> bool
    ensures { result ≡ (bytes_eq word.now (codes "self") || (bytes_eq word.now (codes "super") || bytes_eq word.now (codes "outer"))) }
{
    word == b"self".as_slice() || word == b"super".as_slice() || word == b"outer".as_slice()
}

fn is_value(word: &[u8]) -> bool
    ensures { result ≡ (bytes_eq word.now (codes "true") || (bytes_eq word.now (codes "false") || bytes_eq word.now (codes "nil"))) }
{
    word == b"true".as_slice() || word == b"false".as_slice() || word == b"nil".as_slice()
}
