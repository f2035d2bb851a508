//! Replays: what is told of the steps to which moves lead, and what is left where the shelf fails.

use crate::command::{Commands, Fails, Row, first_other};

/// One that takes four steps, and prints in the last one.
const FILES: &[(&str, &[u8])] = &[(
    "H.ns",
    b"class Hello packageUsing: manifest = (
) (
public main: platform args: args = (
    platform console printLine: 'Hello'
)
)
",
)];

const START: &str = "step 0 cells 10 depth 0 out 0\n";

const END: &str = "step 4 cells 13 depth 0 out 6\n";

/// The words of a replay, and what is told: back from the end, which is where a far step leads too; never below the start; and within
/// the limits that are given.
const ROWS: &[Row] = &[
    (
        "replay H.ns +4 -1 =0",
        "step 4 cells 13 depth 0 out 6\nstep 3 cells 13 depth 1 out 0\nstep 0 cells 10 depth 0 out 0\n",
        "",
        0,
    ),
    (
        "replay H.ns =9 -9",
        "step 4 cells 13 depth 0 out 6\nstep 0 cells 10 depth 0 out 0\n",
        "",
        0,
    ),
    ("replay H.ns =1000000000000", END, "", 0),
    ("replay H.ns -0", START, "", 0),
    (
        "replay --steps=3 H.ns =9 =1",
        "step 3 cells 13 depth 1 out 0\nstep 1 cells 11 depth 0 out 0\n",
        "",
        0,
    ),
];

const REFUSED: &[Row] = &[
    ("replay H.ns", "", "nspk: bad word 2\n", 2),
    ("replay H.ns 3", "", "nspk: bad word 2\n", 2),
    ("replay H.ns +03", "", "nspk: bad word 2\n", 2),
    ("replay H.ns =1000000000001", "", "nspk: bad word 2\n", 2),
    ("replay H.ns +1 H.ns", "", "nspk: bad word 3\n", 2),
    ("replay -1 H.ns", "", "nspk: bad word 1\n", 2),
    (
        "replay --cells=4000001 H.ns +1",
        "",
        "nspk: bad word 1\n",
        2,
    ),
    ("replay N.ns +1", "", "N.ns: Missing\n", 2),
];

/// A file that can't be read.
const FAILING: &[(Fails, Row)] = &[(Fails::Shelf(0), ("replay H.ns +1", "", "", 4))];

const COMMANDS: Commands = Commands {
    files: FILES,
    tables: &[ROWS, REFUSED],
    failing: FAILING,
};

#[test]
fn runs_are_gone_through(rt: HostRuntime) {
    assert_eq!(rt; first_other(rt.alloc(), &COMMANDS), None);
}
