//! Sessions: what is told of their applications, and what is left where a device fails.

use crate::command::{Commands, Fails, Row, first_other};

/// One that prints a line, and one that asks for a console.
const FILES: &[(&str, &[u8])] = &[
    (
        "A.ns",
        b"class A packageUsing: m = () (public main: p args: a = (p console printLine: 'a'))",
    ),
    (
        "B.ns",
        b"class B packageUsing: m = () (public main: p args: a = (^p console))",
    ),
];

const TWO: &str = "session --quantum=1 c=A.ns =B.ns";

const TOLD: &str = "app 0
a
=> object A
app 1
B.ns:1:60: NotUnderstood Platform console
";

/// What the first tells alone, in JSON.
const TOLD_IN_PARTS: &str =
    "[{\"status\":\"done\",\"answer\":\"object A\",\"output\":\"a\\u000a\",\"steps\":4,\"cells\":11,\"depth\":0,\"out\":2}]\n";

const ROWS: &[Row] = &[
    (TWO, TOLD, "", 1),
    ("session --json c=A.ns", TOLD_IN_PARTS, "", 0),
    (
        "session --json c=A.ns =C.ns",
        "{\"status\":\"refused\",\"cause\":\"Missing\",\"file\":\"C.ns\"}\n",
        "",
        2,
    ),
];

const FAILING: &[(Fails, Row)] = &[
    (Fails::Shelf(0), (TWO, "", "", 4)),
    (Fails::Shelf(1), (TWO, "", "", 4)),
    (Fails::Out(7), (TWO, "app 0\na", "", 5)),
    (Fails::Err(4), ("session c=A.ns =C.ns", "", "C.ns", 5)),
];

const COMMANDS: Commands = Commands {
    files: FILES,
    tables: &[ROWS],
    failing: FAILING,
};

#[test]
fn sessions_end_so(rt: HostRuntime) {
    assert_eq!(rt; first_other(rt.alloc(), &COMMANDS), None);
}
