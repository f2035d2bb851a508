//! Snapshots: a run that is stored after some of its steps goes on as it would have, and what is left where the shelf fails.

use crate::command::{Commands, Fails, Row, first_other};

/// One that prints twice, and then sends what nothing answers.
const FILES: &[(&str, &[u8])] = &[(
    "P.ns",
    b"class P packageUsing: m = () (
say: p = (p console print: 'b'. p foo)
public main: p args: a = (p console print: 'a'. say: p)
)
",
)];

/// What its run prints, and what is told of it.
const PRINTED: &str = "ab";

const TOLD: &str = "P.ns:2:35: NotUnderstood Platform foo\n";

/// The run that isn't cut.
const WHOLE: &[Row] = &[("run P.ns", PRINTED, TOLD, 1)];

/// The run goes on from where it was cut as if it hadn't been. Of its eight steps it is cut before the first, between the two that
/// print, before the last, and behind the end.
const CUT: &[Row] = &[
    ("snap --at=0 first.snap P.ns", "", "", 0),
    ("resume first.snap", PRINTED, TOLD, 1),
    ("snap --at=5 between.snap P.ns", "", "", 0),
    ("resume between.snap", PRINTED, TOLD, 1),
    ("snap --at=7 last.snap P.ns", "", "", 0),
    ("resume last.snap", PRINTED, TOLD, 1),
    ("snap --at=1000 end.snap P.ns", "", "", 0),
    ("resume end.snap", PRINTED, TOLD, 1),
];

const FAILING: &[(Fails, Row)] = &[
    (Fails::Shelf(0), ("snap --at=5 p.snap P.ns", "", "", 4)),
    (Fails::Shelf(1), ("snap --at=5 p.snap P.ns", "", "", 5)),
    (Fails::Shelf(0), ("resume P.ns", "", "", 4)),
];

const REFUSED: &[Row] = &[
    ("resume P.ns", "", "P.ns: NotASnapshot\n", 2),
    ("resume p.snap", "", "p.snap: Missing\n", 2),
    ("snap --at=5 p.snap Q.ns", "", "Q.ns: Missing\n", 2),
];

const COMMANDS: Commands = Commands {
    files: FILES,
    tables: &[WHOLE, CUT, REFUSED],
    failing: FAILING,
};

#[test]
fn snapshots_are_stored_and_go_on(rt: HostRuntime) {
    assert_eq!(rt; first_other(rt.alloc(), &COMMANDS), None);
}
