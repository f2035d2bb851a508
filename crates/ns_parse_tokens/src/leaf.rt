//! Single tokens that are values: numbers, strings, access words, and primaries of one token.

ghost use Rattle.std.specs.Prelude.{◌≡◌, Some, None, MatchOption, IfOk};
ghost use Rattle.ns_tree.specs.PlainOf.{primary_of};
ghost use Rattle.ns_tree.specs.Grammar.{word_access, word_primary};
ghost use Rattle.ns_parse_tokens.specs.Leaf as spec;
ghost use Rattle.ns_parse_tokens.specs.Reads.{ReaderGives, Reads, next_is};

use crate::fault::ParseFault;
use crate::mark::{Mark, is_mark, sees, skip};
use crate::name::{Sort, name};
use crate::tokens::Tokens;
use ns_base::no_memory::NoMemory;
use ns_base::text::Text;
use ns_tree::make;
use ns_tree::token::{Kind, Reserved};
use ns_tree::tree::{Access, Primary};
use std::alloc::Global;

/// Reads a number.
fn number(tokens: &mut Tokens) -> Result<u64, ParseFault>
    ensures { Reads (λ size. size) spec.number result tokens.old tokens.new }
{
    let at = tokens.at;
    match tokens.next() {
        Some(kind) => match kind {
            Kind::Number(size) => {
                let size = *size;
                tokens.pass();
                Ok(size)
            }
            _ => Err(ParseFault::Syntax(at)),
        },
        None => Err(ParseFault::Syntax(at)),
    }
}

/// Whether a string is next.
pub fn sees_string(tokens: &Tokens) -> bool
    ensures { result ≡ next_is spec.is_string tokens.now }
{
    match tokens.next() {
        Some(kind) => match kind {
            Kind::Str(_) => true,
            _ => false,
        },
        None => false,
    }
}

/// Reads a string.
pub fn string(alloc: Global, tokens: &mut Tokens) -> Result<Text, ParseFault>
    ensures { Reads (λ text. text) spec.string result tokens.old tokens.new }
{
    let at = tokens.at;
    match tokens.next() {
        Some(kind) => match kind {
            Kind::Str(text) => {
                let text = Text::of(alloc, text.bytes())?;
                tokens.pass();
                Ok(text)
            }
            _ => Err(ParseFault::Syntax(at)),
        },
        None => Err(ParseFault::Syntax(at)),
    }
}

/// Reads strings, as many as there are.
pub fn strings(alloc: Global, tokens: &mut Tokens) -> Result<Vec<Text>, ParseFault>
    ensures { Reads (λ texts. texts.items) spec.strings result tokens.old tokens.new }
{
    let mut texts = Vec::new(alloc);
    'texts: while sees_string(tokens) {
        let item = string(alloc, tokens)?;
        texts.push(item)?;
    }
    Ok(texts)
}

/// The access of a reserved word.
fn word_access(word: Reserved) -> Option<Access>
    ensures { result ≡ word_access word }
{
    match word {
        Reserved::Public => Some(Access::Public),
        Reserved::Protected => Some(Access::Protected),
        Reserved::Private => Some(Access::Private),
        _ => None,
    }
}

/// The access word of a token.
pub fn kind_access(kind: &Kind) -> Option<Access>
    ensures { result ≡ spec.kind_access kind.now }
{
    match kind {
        Kind::Word(word) => word_access(*word),
        _ => None,
    }
}

/// Whether the token is an access word.
pub fn is_access(kind: &Kind) -> bool
    ensures { result ≡ spec.is_access kind.now }
{
    kind_access(kind).is_some()
}

/// Reads an access word, if there is one.
pub fn access(tokens: &mut Tokens) -> Option<Access>
    ensures { ReaderGives spec.maybe_access result tokens.old tokens.new }
{
    match tokens.next() {
        Some(kind) => match kind_access(kind) {
            Some(access) => {
                tokens.pass();
                Some(access)
            }
            None => None,
        },
        None => None,
    }
}

fn word_primary(word: Reserved) -> Option<Primary>
    ensures { MatchOption result (word_primary word ≡ None) (λ primary. word_primary word ≡ Some (primary_of primary)) }
{
    match word {
        Reserved::Nil => Some(Primary::Nil),
        Reserved::True => Some(Primary::True),
        Reserved::False => Some(Primary::False),
        Reserved::SelfWord => Some(Primary::SelfWord),
        Reserved::Super => Some(Primary::Super),
        _ => None,
    }
}

/// The primary of one token, if it is one.
fn kind_primary(alloc: Global, kind: &Kind) -> Result<Option<Primary>, NoMemory>
    ensures { IfOk result (λ o. MatchOption o (spec.kind_primary kind.now ≡ None) (λ primary. spec.kind_primary kind.now ≡ Some (primary_of primary))) }
{
    match kind {
        Kind::Ident(text) => Ok(Some(Primary::Name(Text::of(alloc, text.bytes())?))),
        Kind::Number(size) => Ok(Some(Primary::Number {
            minus: false,
            size: *size,
        })),
        Kind::Str(text) => Ok(Some(Primary::Str(Text::of(alloc, text.bytes())?))),
        Kind::Symbol(text) => Ok(Some(Primary::Symbol(Text::of(alloc, text.bytes())?))),
        Kind::Word(word) => Ok(word_primary(*word)),
        _ => Ok(None),
    }
}

/// Whether the token is a primary.
fn is_simple(kind: &Kind) -> bool
    ensures { result ≡ spec.is_simple kind.now }
{
    match kind {
        Kind::Ident(_) => true,
        Kind::Number(_) => true,
        Kind::Str(_) => true,
        Kind::Symbol(_) => true,
        Kind::Word(word) => matches!(
            word,
            Reserved::Nil | Reserved::True | Reserved::False | Reserved::SelfWord | Reserved::Super
        ),
        _ => false,
    }
}

/// Whether a primary of one token is next.
fn sees_simple(tokens: &Tokens) -> bool
    ensures { result ≡ next_is spec.is_simple tokens.now }
{
    match tokens.next() {
        Some(kind) => is_simple(kind),
        None => false,
    }
}

/// Reads a primary of one token.
fn simple(alloc: Global, tokens: &mut Tokens) -> Result<Primary, ParseFault>
    ensures { Reads primary_of spec.simple result tokens.old tokens.new }
{
    let at = tokens.at;
    match tokens.next() {
        Some(kind) => match kind_primary(alloc, kind)? {
            Some(primary) => {
                tokens.pass();
                Ok(primary)
            }
            None => Err(ParseFault::Syntax(at)),
        },
        None => Err(ParseFault::Syntax(at)),
    }
}

/// Reads a primary without brackets.
#[tactic(auto, unfolding(crate::specs::Leaf::leaf))]
pub fn leaf(alloc: Global, tokens: &mut Tokens) -> Result<Primary, ParseFault>
    ensures { Reads primary_of spec.leaf result tokens.old tokens.new }
{
    if sees_simple(tokens) {
        simple(alloc, tokens)
    } else if sees(tokens, Mark::Minus) {
        skip(tokens, Mark::Minus)?;
        let size = number(tokens)?;
        Ok(Primary::Number { minus: true, size })
    } else {
        skip(tokens, Mark::OuterWord)?;
        let name = name(alloc, tokens, Sort::Ident)?;
        Ok(make::outer(alloc, name)?)
    }
}

/// Whether the token begins a primary without brackets.
pub fn starts_leaf(kind: &Kind) -> bool
    ensures { result ≡ spec.starts_leaf kind.now }
{
    is_simple(kind) || is_mark(Mark::Minus, kind) || is_mark(Mark::OuterWord, kind)
}

/// Whether the token begins a primary with brackets.
pub fn starts_bracketed(kind: &Kind) -> bool
    ensures { result ≡ spec.starts_bracketed kind.now }
{
    matches!(kind, Kind::Open | Kind::OpenBlock | Kind::OpenTuple)
}
