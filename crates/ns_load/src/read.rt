//! Reading the text of a file as a tree.

ghost use Rattle.std.specs.Prelude.{◌≡◌, ◌≤◌, IfErr, List, length};
ghost use Rattle.ns_lex.specs.Scan.{InOrder};
ghost use Rattle.ns_load.specs.Answer.{IsSpelling};
ghost use Rattle.ns_load.specs.Place as places;
ghost use Rattle.ns_load.specs.Source as spec;
ghost use Rattle.ns_load.specs.Stated.{IsReading};
ghost use Rattle.ns_load.specs.declared.fault.LoadCause.TheVariants.{Spelling};
ghost use Rattle.ns_load.specs.declared.fault.LoadFault.TheVariants.{At, Memory};
ghost use Rattle.ns_tree.specs.declared.token.Token.{Token};

use crate::fault::{LoadCause, LoadFault, SpellingCause};
use crate::place::{marks, place_of};
use ns_base::items::Items;
use ns_base::key::Key;
use ns_base::no_memory::NoMemory;
use ns_base::place::Place;
use ns_lex::fault::LexFault;
use ns_lex::scan::lex;
use ns_parse::parse::parse;
use ns_parse_tokens::fault::ParseFault;
use ns_tree::token::Token;
use ns_tree::tree::Unit;
use std::alloc::Global;

/// A file that was read: its tree, and the place of each of its tokens and last that of its end.
#[derive(Drop)]
pub struct Source {
    pub unit: Unit,
    pub marks: Items<Place>,
    /// The key of tables of its names.
    pub key: Key,
}

/// What the source of that file spells, or its first fault: of its tokens, else of its brackets,
/// else of its syntax.
#[tactic(auto, using(crate::proofs::Sources::lexical_fault))]
pub fn read(alloc: Global, file: u32, source: &[u8]) -> Result<Source, LoadFault>
    requires { length source.now ≤ 1048576 }
    ensures exact { IsReading (spec.read file source.now) result }
    ensures spelling { IfErr result IsSpelling }
{
    match lex(alloc, source) {
        Ok(tokens) => read_tokens(alloc, file, source, tokens),
        Err(fault) => Err(lexical(file, source, fault)),
    }
}

fn read_tokens(
    alloc: Global,
    file: u32,
    source: &[u8],
    tokens: Vec<Token>,
) -> Result<Source, LoadFault>
    requires short { length source.now ≤ 1048576 }
    requires few { length tokens.items ≤ 1048576 }
    requires in_order { InOrder 0 (length source.now) tokens.items }
    ensures exact { IsReading (spec.read_tokens file source.now tokens.items) result }
    ensures spelling { IfErr result IsSpelling }
{
    match marks(alloc, file, source, tokens.as_slice()) {
        Ok(marks) => parsed(alloc, file, source, tokens, marks),
        Err(NoMemory) => Err(LoadFault::Memory),
    }
}

/// What tokens with these places spell, or the first fault of the grammar. The tokens are let go, and
/// their places stay.
#[tactic(auto, using(crate::proofs::Sources::grammatical_fault))]
fn parsed(
    alloc: Global,
    file: u32,
    source: &[u8],
    tokens: Vec<Token>,
    marks: Items<Place>,
) -> Result<Source, LoadFault>
    requires short { length source.now ≤ 1048576 }
    requires few { length tokens.items ≤ 1048576 }
    requires marks { marks ≡ places.marks file source.now tokens.items }
    ensures exact { IsReading (spec.read_tokens file source.now tokens.items) result }
    ensures spelling { IfErr result IsSpelling }
{
    match parse(alloc, tokens) {
        Ok(unit) => Ok(Source {
            unit,
            marks,
            key: Key::of(source),
        }),
        Err(fault) => Err(grammatical(file, source, marks.as_slice(), fault)),
    }
}

/// A fault of the tokens.
fn lexical(file: u32, source: &[u8], fault: LexFault) -> LoadFault
    requires { length source.now ≤ 1048576 }
    ensures exact { result ≡ spec.lexical file source.now fault }
    ensures spelling { IsSpelling result }
{
    match fault {
        LexFault::BadByte(at) => wrong(file, source, SpellingCause::BadByte, at as usize),
        LexFault::UnclosedComment(at) => wrong(
            file,
            source,
            SpellingCause::UnclosedComment,
            at as usize,
        ),
        LexFault::UnclosedString(at) => wrong(
            file,
            source,
            SpellingCause::UnclosedString,
            at as usize,
        ),
        LexFault::BigNumber(at) => wrong(file, source, SpellingCause::BigNumber, at as usize),
        LexFault::Memory => LoadFault::Memory,
    }
}

/// A fault of the grammar, which stands at a token, or at the end where there is none.
fn grammatical(file: u32, source: &[u8], marks: &[Place], fault: ParseFault) -> LoadFault
    requires { length source.now ≤ 1048576 }
    ensures exact { (tokens : List Token) → marks.now ≡ places.marks file source.now tokens →
        result ≡ spec.grammatical file source.now tokens fault }
    ensures spelling { IsSpelling result }
{
    match fault {
        ParseFault::TooDeep(k) => {
            misspelled(
                file,
                SpellingCause::TooDeep,
                place_at(file, source, marks, k),
            )
        }
        ParseFault::Syntax(k) => {
            misspelled(
                file,
                SpellingCause::Syntax,
                place_at(file, source, marks, k),
            )
        }
        ParseFault::Memory => LoadFault::Memory,
    }
}

/// The fault of a text that is wrong so at that offset.
fn wrong(file: u32, source: &[u8], cause: SpellingCause, offset: usize) -> LoadFault
    requires { length source.now ≤ 1048576 }
    ensures exact { result ≡ spec.wrong file source.now cause offset }
    ensures spelling { IsSpelling result }
{
    let place = place_of(file, source, offset);
    misspelled(file, cause, place)
}

/// The fault of a text that is wrong so at that place.
fn misspelled(file: u32, cause: SpellingCause, place: Place) -> LoadFault
    ensures exact { result ≡ At (Spelling cause place) file }
    ensures spelling { IsSpelling result }
{
    LoadFault::At {
        cause: LoadCause::Spelling { cause, place },
        file,
    }
}

/// The place of the token of that number, or that of the end where there is none.
#[tactic(auto, using(crate::proofs::Places::place_of_token, crate::proofs::Places::no_token))]
fn place_at(file: u32, source: &[u8], marks: &[Place], k: usize) -> Place
    requires { length source.now ≤ 1048576 }
    ensures { (tokens : List Token) → marks.now ≡ places.marks file source.now tokens →
        result ≡ places.place_of file source.now (spec.offset_of tokens k (length source.now)) }
{
    match marks.get(k) {
        Some(place) => *place,
        None => place_of(file, source, source.len()),
    }
}
