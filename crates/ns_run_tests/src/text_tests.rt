//! Texts that are accepted, and the places at which others are refused. Expected places were counted by hand or come
//! from the language's worked examples.

use crate::texts::{METHOD, NOTHING, Row, Table, first_other};

const WRONG_TEXTS: &[Row] = &[
    ("", "", "T.ns:1:1: Syntax\n", 2),
    ("(* open", "", "T.ns:1:1: UnclosedComment\n", 2),
    ("'ab", "", "T.ns:1:1: UnclosedString\n", 2),
    ("\n 'ab", "", "T.ns:2:2: UnclosedString\n", 2),
    ("'ab''", "", "T.ns:1:1: UnclosedString\n", 2),
    ("class A = () (\na = (^1.5))", "", "T.ns:2:8: BadByte\n", 2),
    (
        "class A = () (\na = (^9223372036854775809))",
        "",
        "T.ns:2:7: BigNumber\n",
        2,
    ),
    ("class A = () (\na = (1 2))", "", "T.ns:2:8: Syntax\n", 2),
    ("class A = () (", "", "T.ns:1:15: Syntax\n", 2),
    ("class A = () (\n", "", "T.ns:2:1: Syntax\n", 2),
    ("class A = () (a = ()) b", "", "T.ns:1:23: Syntax\n", 2),
    ("\u{feff}class A = () ()", "", "T.ns:1:1: BadByte\n", 2),
    ("class A\0= () ()", "", "T.ns:1:8: BadByte\n", 2),
    ("class \u{e4} = () ()", "", "T.ns:1:7: BadByte\n", 2),
];

const REFUSED_CLASSES: &[Row] = &[
    (
        "class T packageUsing: m = () (a = () a = ())",
        "",
        "T.ns:1:38: DuplicateMember\n",
        2,
    ),
    (
        "class T = (| a ::= 1. |) (a: b = ())",
        "",
        "T.ns:1:27: DuplicateMember\n",
        2,
    ),
    (
        "class T packageUsing: m = () (a = (^super) a = ())",
        "",
        "T.ns:1:37: BareReceiver\n",
        2,
    ),
    (
        "class T packageUsing: m = (^m) ()",
        "",
        "T.ns:1:28: BadReturn\n",
        2,
    ),
    ("class T = ([^1]) ()", "", "T.ns:1:13: BadReturn\n", 2),
    (
        "class T a: b c: b = () ()",
        "",
        "T.ns:1:17: DuplicateLocal\n",
        2,
    ),
    ("class T = Foo () ()", "", "T.ns:1:11: TopSuper\n", 2),
    (
        "class T = super Object () ()",
        "",
        "T.ns:1:11: TopSuper\n",
        2,
    ),
    ("class T = Object foo () ()", "", "T.ns:1:11: TopSuper\n", 2),
    (
        "class T = () (class A = outer B C () ())",
        "",
        "T.ns:1:31: NoSuchOuter\n",
        2,
    ),
    (
        "class T = () (class A = outer A B () ())",
        "",
        "T.ns:1:31: NoSuchOuter\n",
        2,
    ),
];

/// Texts that look as if they had a fault.
const ACCEPTED_CLASSES: &[Row] = &[
    ("class T = Object new () ()", "ok\n", "", 0),
    ("class T a: b = () () : (a: b = (^b))", "ok\n", "", 0),
    (
        "class T = (| x = 1. y ::= x. z |) (class A = super T z: [y:: 2. z:: 3] (| x = 1. |) ())",
        "ok\n",
        "",
        0,
    ),
    (
        "class T = () (class A = () (x = (^outer A y foo; z)) x = (^-9223372036854775808))",
        "ok\n",
        "",
        0,
    ),
    (
        "class T = () (a: b = (| x ::= b. | [| x ::= 2. | x:: 3]. ^p foo; bar: x; + 2))",
        "ok\n",
        "",
        0,
    ),
];

/// The first two have the most brackets open, and one more.
const CHECKED_BODIES: &[Row] = &[
    (
        "((((((((((((((((((((((((((((((((((((((((((((((((((((((((((((((((((((((((((((((((((((((((((((((((((1))))))))))))))))))))))))))))))))))))))))))))))))))))))))))))))))))))))))))))))))))))))))))))))))))",
        "ok\n",
        "",
        0,
    ),
    (
        "(((((((((((((((((((((((((((((((((((((((((((((((((((((((((((((((((((((((((((((((((((((((((((((((((((",
        "",
        "T.ns:2:125: TooDeep\n",
        2,
    ),
    ("| x x |", "", "T.ns:2:31: DuplicateLocal\n", 2),
    ("| p |", "", "T.ns:2:29: DuplicateLocal\n", 2),
    ("a:: 1", "", "T.ns:2:27: FixedLocal\n", 2),
    ("| x = 1. | [:y | x:: y]", "", "T.ns:2:44: FixedLocal\n", 2),
    ("[:y | y:: 1]", "", "T.ns:2:33: FixedLocal\n", 2),
    ("^super", "", "T.ns:2:28: BareReceiver\n", 2),
    ("super; foo", "", "T.ns:2:27: BareReceiver\n", 2),
    ("3 + outer T", "", "T.ns:2:31: BareReceiver\n", 2),
    ("^outer Z q", "", "T.ns:2:34: NoSuchOuter\n", 2),
    ("3; foo", "", "T.ns:2:28: BadCascade\n", 2),
    ("super foo; bar", "", "T.ns:2:36: BadCascade\n", 2),
    ("foo: 1; bar", "", "T.ns:2:33: BadCascade\n", 2),
    ("^9223372036854775808", "", "T.ns:2:28: PlainTooLarge\n", 2),
    ("1 2", "", "T.ns:2:29: Syntax\n", 2),
    ("^1.5", "", "T.ns:2:29: BadByte\n", 2),
    ("^9223372036854775809", "", "T.ns:2:28: BigNumber\n", 2),
];

/// Bodies that are refused before they run.
const REFUSED_BODIES: &[Row] = &[
    ("^super", "", "T.ns:2:28: BareReceiver\n", 2),
    ("1 2", "", "T.ns:2:29: Syntax\n", 2),
];

const TABLES: [Table; 7] = [
    ("check T.ns", NOTHING, WRONG_TEXTS),
    ("show T.ns", NOTHING, WRONG_TEXTS),
    ("run T.ns", NOTHING, WRONG_TEXTS),
    ("check T.ns", NOTHING, REFUSED_CLASSES),
    ("check T.ns", NOTHING, ACCEPTED_CLASSES),
    ("check T.ns", METHOD, CHECKED_BODIES),
    ("run T.ns", METHOD, REFUSED_BODIES),
];

#[test]
fn a_text_is_accepted_or_refused_at_its_place(rt: HostRuntime) {
    assert_eq!(rt; first_other(rt.alloc(), &TABLES), None);
}
