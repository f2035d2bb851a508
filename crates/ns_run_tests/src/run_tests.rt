//! Bodies of a method, and what their runs leave. Expected bytes come from the language's worked examples, and were
//! counted by hand.

use crate::texts::{METHOD, Row, Table, first_other};

const DONE: &[Row] = &[
    ("", "", "=> object T\n", 0),
    ("^self", "", "=> object T\n", 0),
    ("^nil", "", "=> nil\n", 0),
    ("p console printLine: 'a'.", "a\n", "=> object T\n", 0),
    (
        "p console printLine: 'a'. p console print: 'b'",
        "a\nb",
        "=> object T\n",
        0,
    ),
    ("(p console printLine: 'a')", "a\n", "=> object T\n", 0),
    ("| x | p console printLine: 'a'", "a\n", "=> object T\n", 0),
    ("p console printLine: 3", "3\n", "=> object T\n", 0),
    (
        "p console printLine: 'a'; printLine: 'b'",
        "a\nb\n",
        "=> object T\n",
        0,
    ),
    (
        "{1. 2. 3} do: [:x | x > 1 ifTrue: [^x]]. ^0",
        "",
        "=> 2\n",
        0,
    ),
    ("^-7 // 2", "", "=> -4\n", 0),
    ("^-7 \\\\ 2", "", "=> 1\n", 0),
    ("^-9223372036854775808", "", "=> -9223372036854775808\n", 0),
];

const ERRORS: &[Row] = &[
    ("^1 // 0", "", "T.ns:2:30: ZeroDivide Integer //\n", 1),
    (
        "^9223372036854775807 + 1",
        "",
        "T.ns:2:48: Overflow Integer +\n",
        1,
    ),
    (
        "^-9223372036854775808 // -1",
        "",
        "T.ns:2:49: Overflow Integer //\n",
        1,
    ),
    (
        "a console printLine: 'a'",
        "",
        "T.ns:2:29: NotUnderstood Array console\n",
        1,
    ),
    (
        "p console printLine: 'a'. ^nil foo",
        "a\n",
        "T.ns:2:58: NotUnderstood UndefinedObject foo\n",
        1,
    ),
];

/// The sends that were open, where an error came from and where the run was at a limit.
const TRACED: &[Row] = &[
    (
        "^1 // 0",
        "",
        "T.ns:2:30: ZeroDivide Integer //\n  T main:args: at T.ns:1:7\n",
        1,
    ),
    ("^7", "", "=> 7\n", 0),
];

const TRACED_AT_A_LIMIT: &[Row] = &[(
    "[] value",
    "",
    "limit: depth\n  T main:args: at T.ns:1:7\n",
    3,
)];

/// Bodies that are run, those of which an error is traced, and one for each limit.
const TABLES: [Table; 8] = [
    ("run T.ns", METHOD, DONE),
    ("run T.ns", METHOD, ERRORS),
    ("run --trace T.ns", METHOD, TRACED),
    ("run --trace --depth=1 T.ns", METHOD, TRACED_AT_A_LIMIT),
    (
        "run --steps=1 T.ns",
        METHOD,
        &[("", "", "limit: steps\n", 3)],
    ),
    (
        "run --cells=1 T.ns",
        METHOD,
        &[("", "", "limit: cells\n", 3)],
    ),
    (
        "run --depth=1 T.ns",
        METHOD,
        &[("[] value", "", "limit: depth\n", 3)],
    ),
    (
        "run --out=1 T.ns",
        METHOD,
        &[("p console print: 'a'; print: 'b'", "a", "limit: out\n", 3)],
    ),
];

#[test]
fn a_run_leaves_what_its_program_means(rt: HostRuntime) {
    assert_eq!(rt; first_other(rt.alloc(), &TABLES), None);
}
