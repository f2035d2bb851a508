//! Texts that are files, and the number of the token with which others are none any more. Expected
//! numbers were counted by hand.

use crate::reading::read;
use ns_parse_tokens::fault::ParseFault;
use std::alloc::Global;

/// A text, and the number of the token at which it stops to be a file, where it does.
type Row = (&'static str, Option<usize>);

const FILES: &[Row] = &[
    ("class A = () ()", None),
    ("Newspeak3 'category' class A = (1. 2) ()", None),
    ("class Newspeak3 new = Object () ()", None),
    (
        "class A x: a y: b = B <: outer C D x: 1 + 2 y: b foo (| x = a. public y ::= b. z private w. |) () : ()",
        None,
    ),
    (
        "class A = super B new (| x = (1 | 2) + {3 | 4}. y |) ('c' public class B = () () 'd' 'e' private + x = () at: i put: x = () 'f')",
        None,
    ),
    (
        "class A = () () : ('c' a = () | x = (| y |) protected b = () 'd')",
        None,
    ),
    ("", Some(0)),
    ("class", Some(1)),
    ("class A = ()", Some(5)),
    ("class A = () () x", Some(7)),
    ("class A = (.) ()", Some(4)),
    ("Newspeak3 Newspeak3 class A = () ()", Some(1)),
    ("class A + b = () ()", Some(2)),
    ("class A = B + 1 () ()", Some(4)),
    ("class A = outer B () ()", Some(5)),
    ("class A = (| x = 1 |) ()", Some(8)),
    ("class A = (| x = 1 | 2. |) ()", Some(8)),
    ("class A = () (a = (| public x |))", Some(10)),
    ("class A = () () : (class B = () ())", Some(9)),
    ("class A = () (public)", Some(7)),
    ("class A = () ('c' x)", Some(8)),
    ("class A = () ('c' 'd'", Some(8)),
];

/// The first token of each body has the number 9.
const BODIES: &[Row] = &[
    ("class A = () (a = ())", None),
    ("class A = () (a = (1.))", None),
    ("class A = () (a = (^1. 2))", None),
    ("class A = () (a = (x:: y:: 1))", None),
    ("class A = () (a = (a foo; bar: 1; + 2))", None),
    ("class A = () (a = (foo: 1 bar: 2 baz))", None),
    ("class A = () (a = (- 1 - -1))", None),
    ("class A = () (a = ([]))", None),
    ("class A = () (a = ([:a :b | | x | a]))", None),
    ("class A = () (a = ([| x ::= 1. y | x.]))", None),
    ("class A = () (a = ({}))", None),
    ("class A = () (a = ({1. 2.}))", None),
    (
        "class A = () (a = (super foo. outer A foo. self. nil. true. false. 'it'. #at:put:))",
        None,
    ),
    ("class A = () (a = (| x = 1. y | x | y))", None),
    ("class A = () (a = (1 2))", Some(10)),
    ("class A = () (a = (.))", Some(9)),
    ("class A = () (a = (1. . 2))", Some(11)),
    ("class A = () (a = (^))", Some(10)),
    ("class A = () (a = (1 +))", Some(11)),
    ("class A = () (a = (a foo:))", Some(11)),
    ("class A = () (a = (- x))", Some(10)),
    ("class A = () (a = (x::))", Some(10)),
    ("class A = () (a = ({1 2}))", Some(11)),
    ("class A = () (a = ([:a]))", Some(12)),
    ("class A = () (a = ([:a || a]))", Some(12)),
    ("class A = () (a = (outer 1))", Some(10)),
    ("class A = () (a = ((| x | 1)))", Some(10)),
    ("class A = () (a = (()))", Some(10)),
    ("class A = () (a = (a ;))", Some(11)),
    ("class A = () (a = (1 foo: 2; 3))", Some(13)),
];

#[test]
fn files_are_read_and_other_texts_stop_at_their_token(rt: HostRuntime) {
    for rows in [FILES, BODIES] {
        assert_eq!(rt; first_read_otherwise(rt.alloc(), rows), None);
    }
}

/// The first text that isn't read or doesn't stop so.
fn first_read_otherwise(alloc: Global, rows: &[Row]) -> Option<&'static str> {
    for (text, token) in rows {
        if !stops(alloc, text.as_bytes(), *token) {
            return Some(text);
        }
    }
    None
}

fn stops(alloc: Global, source: &[u8], token: Option<usize>) -> bool {
    let want = match token {
        Some(at) => Some(ParseFault::Syntax(at)),
        None => None,
    };
    read(alloc, source).err() == want
}
