//! Tokens with their spans, and where a text is no list of tokens. Expected places were counted by hand.

ghost use Rattle.std.specs.Prelude.{◌≤◌, length};

use ns_base::no_memory::NoMemory;
use ns_lex::fault::LexFault;
use ns_lex::scan::lex;
use ns_tree::token::{Kind, Reserved, Token};
use std::alloc::Global;

/// A source, and a line for each of its tokens: what it is, its text, and the bytes from which and up
/// to which it goes.
type Row = (&'static str, &'static str);

const NAMES_AND_KEYS: &[Row] = &[
    ("a_1 B _", "Ident a_1 0 3\nIdent B 4 5\nIdent _ 6 7\n"),
    ("a::=", "Ident a 0 1\n::= 1 4\n"),
    ("a ::= b", "Ident a 0 1\n::= 2 5\nIdent b 6 7\n"),
    ("a::", "SetKey a 0 3\n"),
    ("a:::", "SetKey a 0 3\n: 3 4\n"),
    ("a: b:c:", "Key a: 0 2\nKey b: 3 5\nKey c: 5 7\n"),
    ("a:=", "Key a: 0 2\nOper = 2 3\n"),
    ("class", "Word class 0 5\n"),
    ("class: nil::", "Key class: 0 6\nSetKey nil 7 12\n"),
    (
        "class::=classes",
        "Word class 0 5\n::= 5 8\nIdent classes 8 15\n",
    ),
    (
        "public protected private",
        "Word public 0 6\nWord protected 7 16\nWord private 17 24\n",
    ),
    (
        "self super outer",
        "Word self 0 4\nWord super 5 10\nWord outer 11 16\n",
    ),
    (
        "true false nil Nil",
        "Word true 0 4\nWord false 5 10\nWord nil 11 14\nIdent Nil 15 18\n",
    ),
];

const OPERATORS_AND_MARKS: &[Row] = &[
    ("<:", "Oper <: 0 2\n"),
    ("<:=", "Oper <: 0 2\nOper = 2 3\n"),
    ("<<:", "Oper << 0 2\n: 2 3\n"),
    ("=<:", "Oper =< 0 2\n: 2 3\n"),
    ("+-*/\\~<>=@%|&?,!", "Oper +-*/\\~<>=@%|&?,! 0 16\n"),
    ("a<-1", "Ident a 0 1\nOper <- 1 3\nNumber 1 3 4\n"),
    ("()[]{}", "( 0 1\n) 1 2\n[ 2 3\n] 3 4\n{ 4 5\n} 5 6\n"),
    (".;^:::=", ". 0 1\n; 1 2\n^ 2 3\n: 3 4\n::= 4 7\n"),
    ("::=::", "::= 0 3\n: 3 4\n: 4 5\n"),
    ("(+*)", "( 0 1\nOper +* 1 3\n) 3 4\n"),
];

const LITERALS: &[Row] = &[
    ("''", "Str  0 2\n"),
    ("'it''s'", "Str it's 0 7\n"),
    ("'''' 'a''''b'", "Str ' 0 4\nStr a''b 5 13\n"),
    ("'\"(*' b", "Str \"(* 0 5\nIdent b 6 7\n"),
    ("'é'", "Str é 0 4\n"),
    ("#at:put:", "Symbol at:put: 0 8\n"),
    ("#at:put", "Symbol at: 0 4\nIdent put 4 7\n"),
    ("#a::=", "Symbol a: 0 3\n: 3 4\nOper = 4 5\n"),
    ("#a:1", "Symbol a: 0 3\nNumber 1 3 4\n"),
    (
        "#+ #<: #<:=",
        "Symbol + 0 2\nSymbol <: 3 6\nSymbol <: 7 10\nOper = 10 11\n",
    ),
    ("#foo #class", "Symbol foo 0 4\nSymbol class 5 11\n"),
    ("0 007", "Number 0 0 1\nNumber 7 2 5\n"),
    ("9223372036854775808", "Number 9223372036854775808 0 19\n"),
    ("1. 2", "Number 1 0 1\n. 1 2\nNumber 2 3 4\n"),
    ("1.a", "Number 1 0 1\n. 1 2\nIdent a 2 3\n"),
];

const GAPS: &[Row] = &[
    ("", ""),
    ("\t\n\r \x0c", ""),
    ("a\rb\x0cc", "Ident a 0 1\nIdent b 2 3\nIdent c 4 5\n"),
    ("(* a (* b *) c *) d", "Ident d 18 19\n"),
    ("(**)(***)a", "Ident a 9 10\n"),
    ("(* (*) *) *)a", "Ident a 12 13\n"),
    ("(* 'it \" *)a", "Ident a 11 12\n"),
    ("\"it's (* é\"a", "Ident a 12 13\n"),
    ("(* é *)a", "Ident a 8 9\n"),
    ("a(* *)::=", "Ident a 0 1\n::= 6 9\n"),
];

#[test]
fn texts_are_cut_into_tokens(rt: HostRuntime) {
    for rows in [NAMES_AND_KEYS, OPERATORS_AND_MARKS, LITERALS, GAPS] {
        assert_eq!(rt; first_cut_otherwise(rt.alloc(), rows), None);
    }
}

/// The first source that isn't cut so.
fn first_cut_otherwise(alloc: Global, rows: &[Row]) -> Option<&'static str> {
    for (source, want) in rows {
        if !is_cut_so(alloc, source, want) {
            return Some(source);
        }
    }
    None
}

fn is_cut_so(alloc: Global, source: &str, want: &str) -> bool {
    if source.len() > 1_048_576 {
        return false;
    }
    match shown(alloc, source.as_bytes()) {
        Ok(tokens) => tokens.as_slice() == want.as_bytes(),
        Err(_) => false,
    }
}

fn shown(alloc: Global, source: &[u8]) -> Result<Vec<u8>, LexFault>
    requires { length source.now ≤ 1048576 }
{
    let mut out = Vec::new(alloc);
    for token in &lex(alloc, source)? {
        put_token(alloc, &mut out, token)?;
    }
    Ok(out)
}

fn put_token(alloc: Global, out: &mut Vec<u8>, token: &Token) -> Result<(), NoMemory> {
    let (start, end) = (token.start, token.end);
    out.extend_from_slice(name(&token.kind).as_bytes())?;
    match &token.kind {
        Kind::Number(value) => {
            out.extend_from_slice(format!(in alloc; "{value}")?.as_bytes())?;
        }
        kind => out.extend_from_slice(text(kind))?,
    }
    out.extend_from_slice(format!(in alloc; " {start} {end}\n")?.as_bytes())?;
    Ok(())
}

/// What a token is, with a blank behind it where it has a text.
fn name(kind: &Kind) -> &'static str {
    match kind {
        Kind::Ident(_) => "Ident ",
        Kind::Word(word) => word_name(*word),
        Kind::Key(_) => "Key ",
        Kind::SetKey(_) => "SetKey ",
        Kind::Oper(_) => "Oper ",
        Kind::Number(_) => "Number ",
        Kind::Str(_) => "Str ",
        Kind::Symbol(_) => "Symbol ",
        Kind::Open => "(",
        Kind::Close => ")",
        Kind::OpenBlock => "[",
        Kind::CloseBlock => "]",
        Kind::OpenTuple => "{",
        Kind::CloseTuple => "}",
        Kind::Stop => ".",
        Kind::Semi => ";",
        Kind::Caret => "^",
        Kind::Colon => ":",
        Kind::SlotSet => "::=",
    }
}

fn word_name(word: Reserved) -> &'static str {
    match word {
        Reserved::Class => "Word class",
        Reserved::Public => "Word public",
        Reserved::Protected => "Word protected",
        Reserved::Private => "Word private",
        Reserved::SelfWord => "Word self",
        Reserved::Super => "Word super",
        Reserved::Outer => "Word outer",
        Reserved::True => "Word true",
        Reserved::False => "Word false",
        Reserved::Nil => "Word nil",
    }
}

fn text(kind: &Kind) -> &[u8] {
    match kind {
        Kind::Ident(text) => text.bytes(),
        Kind::Key(text) => text.bytes(),
        Kind::SetKey(text) => text.bytes(),
        Kind::Oper(text) => text.bytes(),
        Kind::Str(text) => text.bytes(),
        Kind::Symbol(text) => text.bytes(),
        _ => b"",
    }
}

const NO_TOKENS: &[(&[u8], LexFault)] = &[
    (b"ab $", LexFault::BadByte(3)),
    (b"\xef\xbb\xbfclass", LexFault::BadByte(0)),
    (b"a\x00b", LexFault::BadByte(1)),
    (b"a\xe9", LexFault::BadByte(1)),
    (b"a\x0b", LexFault::BadByte(1)),
    (b"a #", LexFault::BadByte(2)),
    (b"# a", LexFault::BadByte(0)),
    (b"#1", LexFault::BadByte(0)),
    (b"1.5", LexFault::BadByte(1)),
    (b" 1a", LexFault::BadByte(2)),
    (b"16r1F", LexFault::BadByte(2)),
    (b"1_", LexFault::BadByte(1)),
    (b"9223372036854775809x", LexFault::BadByte(19)),
    (b"a 9223372036854775809", LexFault::BigNumber(2)),
    (b"99999999999999999999999999", LexFault::BigNumber(0)),
    (b"(* open", LexFault::UnclosedComment(0)),
    (b"a (*)", LexFault::UnclosedComment(2)),
    (b"(* (* *)", LexFault::UnclosedComment(0)),
    (b" \"a", LexFault::UnclosedComment(1)),
    (b"'ab", LexFault::UnclosedString(0)),
    (b"a 'ab''", LexFault::UnclosedString(2)),
];

#[test]
fn a_wrong_text_stops_at_its_first_fault(rt: HostRuntime) {
    assert_eq!(rt; first_with_another_fault(rt.alloc()), None);
}

/// The first fault that isn't that of its source.
fn first_with_another_fault(alloc: Global) -> Option<LexFault> {
    for (source, fault) in NO_TOKENS {
        if !stops_at(alloc, source, *fault) {
            return Some(*fault);
        }
    }
    None
}

fn stops_at(alloc: Global, source: &[u8], want: LexFault) -> bool {
    if source.len() > 1_048_576 {
        return false;
    }
    match lex(alloc, source) {
        Ok(_) => false,
        Err(fault) => fault == want,
    }
}
