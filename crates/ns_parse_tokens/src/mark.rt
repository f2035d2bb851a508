//! Tokens of one spelling: signs, and words and names with a meaning of their own.

ghost use Rattle.std.specs.Prelude.{◌≡◌, IfOk};
ghost use Rattle.ns_parse_tokens.specs.Mark as spec;
ghost use Rattle.ns_parse_tokens.specs.Reads.{ReaderGives, Reads, next_is};

use crate::fault::ParseFault;
use crate::tokens::Tokens;
use ns_tree::token::{Kind, Reserved};

/// A token of one spelling.
#[derive(Clone, Copy)]
pub enum Mark {
    Open,
    Close,
    OpenBlock,
    CloseBlock,
    OpenTuple,
    CloseTuple,
    Stop,
    Semi,
    Caret,
    Colon,
    SlotSet,
    /// `|`
    Bar,
    /// `=`
    Equals,
    /// `<:`
    Over,
    /// `-`
    Minus,
    ClassWord,
    SuperWord,
    OuterWord,
    /// The name with which a file may begin.
    Newspeak3,
}

/// Whether the token is that mark.
pub fn is_mark(mark: Mark, kind: &Kind) -> bool
    ensures { result ≡ spec.is_mark mark kind.now }
{
    match kind {
        Kind::Oper(text) => is_sign(mark, text.bytes()),
        Kind::Word(word) => is_word(mark, *word),
        Kind::Ident(text) => is_ident(mark, text.bytes()),
        Kind::Open => matches!(mark, Mark::Open),
        Kind::Close => matches!(mark, Mark::Close),
        Kind::OpenBlock => matches!(mark, Mark::OpenBlock),
        Kind::CloseBlock => matches!(mark, Mark::CloseBlock),
        Kind::OpenTuple => matches!(mark, Mark::OpenTuple),
        Kind::CloseTuple => matches!(mark, Mark::CloseTuple),
        Kind::Stop => matches!(mark, Mark::Stop),
        Kind::Semi => matches!(mark, Mark::Semi),
        Kind::Caret => matches!(mark, Mark::Caret),
        Kind::Colon => matches!(mark, Mark::Colon),
        Kind::SlotSet => matches!(mark, Mark::SlotSet),
        _ => false,
    }
}

/// Whether an operator of that text is the mark.
fn is_sign(mark: Mark, text: &[u8]) -> bool
    ensures { result ≡ spec.is_sign_of mark text.now }
{
    match mark {
        Mark::Bar => text == b"|".as_slice(),
        Mark::Equals => text == b"=".as_slice(),
        Mark::Over => text == b"<:".as_slice(),
        Mark::Minus => text == b"-".as_slice(),
        _ => false,
    }
}

/// Whether that reserved word is the mark.
fn is_word(mark: Mark, word: Reserved) -> bool
    ensures { result ≡ spec.is_word_of mark word }
{
    match word {
        Reserved::Class => matches!(mark, Mark::ClassWord),
        Reserved::Super => matches!(mark, Mark::SuperWord),
        Reserved::Outer => matches!(mark, Mark::OuterWord),
        _ => false,
    }
}

/// Whether an identifier of that text is the mark.
fn is_ident(mark: Mark, text: &[u8]) -> bool
    ensures { result ≡ spec.is_ident_of mark text.now }
{
    match mark {
        Mark::Newspeak3 => text == b"Newspeak3".as_slice(),
        _ => false,
    }
}

/// Whether the mark is the next token.
pub fn sees(tokens: &Tokens, mark: Mark) -> bool
    ensures { result ≡ next_is (spec.is_mark mark) tokens.now }
{
    match tokens.next() {
        Some(kind) => is_mark(mark, kind),
        None => false,
    }
}

/// Reads the mark, and answers its number.
pub fn place(tokens: &mut Tokens, mark: Mark) -> Result<u32, ParseFault>
    ensures { Reads (λ at. at) (spec.place mark) result tokens.old tokens.new }
{
    let at = tokens.at;
    match tokens.next() {
        Some(kind) => {
            if is_mark(mark, kind) {
                tokens.pass();
                Ok(at as u32)
            } else {
                Err(ParseFault::Syntax(at))
            }
        }
        None => Err(ParseFault::Syntax(at)),
    }
}

/// Reads the mark.
pub fn skip(tokens: &mut Tokens, mark: Mark) -> Result<(), ParseFault>
    ensures { Reads (λ none. none) (spec.skip mark) result tokens.old tokens.new }
{
    let at = tokens.at;
    match tokens.next() {
        Some(kind) => {
            if is_mark(mark, kind) {
                tokens.pass();
                Ok(())
            } else {
                Err(ParseFault::Syntax(at))
            }
        }
        None => Err(ParseFault::Syntax(at)),
    }
}

/// Reads the mark if it is next, and answers whether it was.
pub fn skip_if(tokens: &mut Tokens, mark: Mark) -> bool
    ensures { ReaderGives (spec.flag mark) result tokens.old tokens.new }
{
    match tokens.next() {
        Some(kind) => {
            if is_mark(mark, kind) {
                tokens.pass();
                true
            } else {
                false
            }
        }
        None => false,
    }
}

/// Reads the mark if it is next, and answers its number.
pub fn place_if(tokens: &mut Tokens, mark: Mark) -> Option<u32>
    ensures { ReaderGives (spec.maybe_place mark) result tokens.old tokens.new }
{
    let at = tokens.at;
    match tokens.next() {
        Some(kind) => {
            if is_mark(mark, kind) {
                tokens.pass();
                Some(at as u32)
            } else {
                None
            }
        }
        None => None,
    }
}

/// Reads the mark behind what was read before, and hands that back.
pub fn closed<T: Drop>(tokens: &mut Tokens, mark: Mark, inner: T) -> Result<T, ParseFault>
    ensures read { Reads (λ _. tt) (spec.skip mark) result tokens.old tokens.new }
    ensures kept { IfOk result (λ it. it ≡ inner) }
{
    match skip(tokens, mark) {
        Ok(()) => Ok(inner),
        Err(fault) => Err(fault),
    }
}
