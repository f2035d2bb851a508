//! Commands over a few files. Expected bytes come from the language's worked examples.

use crate::command::{Commands, Fails, Row, first_other, leaves};
use ns_help::usage::{HELP, VERSION};
use std::alloc::Global;

const HELLO: &[u8] = b"class Hello packageUsing: manifest = () (
public main: platform args: args = (
platform console printLine: 'Hello'
)
)
";

/// The same with a marker, categories and comments, and nearly without gaps.
const GAPS: &[u8] = b"Newspeak3 'Greetings'
(* (* nested *) \" *)class Hello\tpackageUsing: manifest=()(\"first\"'starting'
public main: platform args: args = (platform \"'\" console printLine:'Hello')'end' 'of it')";

const LINES: &[u8] = b"class Lines packageUsing: m = () (
public main: p args: a = (p console printLine: 'it''s'.
\tp console printLine:''. p console printLine: 'c')
)
";

const WORDS: &[u8] = b"class Words packageUsing: m = () (
public main: p args: a = (p console printLine: (a at: 2). ^a size)
)
";

const MAIN: &[u8] = b"Newspeak3
'Bank'
class App packageUsing: manifest = (
| Collections = manifest Collections. Bank = manifest Bank. |) (
'starting'
public main: platform args: args = (
| bank ann |
bank:: Bank list: (Collections usingKernel: platform kernel) List new.
ann:: bank open: 'Ann'.
ann deposit: 120; deposit: -20; deposit: 5.
(bank open: 'Bob') deposit: 7.
bank report: platform console.
^ann line)
)
";

const BANK: &[u8] = b"class Bank list: aList = (| private accounts = aList. |) (
public class Account owner: o = (| public owner = o. balance ::= 0. |) (
public deposit: n = (n < 0 ifTrue: [^false]. addUp: n. ^true)
protected addUp: n = (balance:: balance + n)
public line = (^owner , ' ' , balance printString)
)
public open: o = (^accounts add: (Account owner: o))
public report: console = (accounts do: [:each | console printLine: each line])
)
";

/// The files that each command finds.
pub const FILES: &[(&str, &[u8])] = &[
    ("H.ns", HELLO),
    ("Gaps.ns", GAPS),
    ("Lines.ns", LINES),
    ("Main.ns", MAIN),
    ("Bank.ns", BANK),
    ("Words.ns", WORDS),
    ("Empty.ns", b""),
    ("Super.ns", b"class B = () (a = (^super))"),
    ("Lib.ns", b"class Collections = () ()"),
];

const EVALUATED: &[Row] = &[
    ("eval '| x | x:: 3. x * x'", "", "=> 9\n", 0),
    ("eval 'args size' -- -a b", "", "=> 2\n", 0),
    (
        "eval --stats --steps=50 '3 + 4'",
        "",
        "=> 7\nused steps 5 of 50 cells 18 of 4000000 depth 0 of 10000 out 0 of 1048576\n",
        0,
    ),
    (
        "eval --text=Empty.ns --text=H.ns '(args at: 3) size' -- x",
        "",
        "=> 119\n",
        0,
    ),
    (
        "run --text=Super.ns Words.ns -- x",
        "class B = () (a = (^super))\n",
        "=> 2\n",
        0,
    ),
    ("eval --true '1 < 2'", "", "=> true\n", 0),
    ("eval --true '2 < 1'", "", "=> false\n", 1),
];

const CHECKED: &[Row] = &[
    ("check H.ns", "ok\n", "", 0),
    ("check --lib Main.ns Bank.ns", "ok\n", "", 0),
    ("check Main.ns Bank.ns", "ok\n", "", 0),
    ("check --lib Bank.ns", "ok\n", "", 0),
    ("check --all H.ns", "ok\n", "", 0),
    ("check --sends H.ns", "ok\n", "", 0),
    ("check --all --sends Words.ns", "ok\n", "", 0),
];

const SHOWN: &[Row] = &[
    (
        "show H.ns",
        "class Hello packageUsing: manifest = ( ) ( public main: platform args: args = ( platform console printLine: 'Hello' ) )\n",
        "",
        0,
    ),
    (
        "show Lines.ns",
        "class Lines packageUsing: m = ( ) ( public main: p args: a = ( p console printLine: 'it''s' .\np console printLine: '' .\np console printLine: 'c' ) )\n",
        "",
        0,
    ),
    (
        "format Lines.ns",
        "class Lines packageUsing: m = () (\npublic main: p args: a = (p console printLine: 'it''s'.\n    p console printLine:''. p console printLine: 'c')\n)\n",
        "",
        0,
    ),
];

const RUN: &[Row] = &[
    ("run H.ns", "Hello\n", "=> object Hello\n", 0),
    ("run Gaps.ns", "Hello\n", "=> object Hello\n", 0),
    (
        "run --lib Main.ns Bank.ns",
        "Ann 125\nBob 7\n",
        "=> 'Ann 125'\n",
        0,
    ),
    (
        "run --out=6 --lib --depth=9 H.ns --",
        "Hello\n",
        "=> object Hello\n",
        0,
    ),
    ("run Words.ns -- '' --steps=1", "--steps=1\n", "=> 2\n", 0),
];

const SAMPLES: &[Row] = &[
    ("sample 1", "1\nclasses 1 steps 9\n", "=> 1\n", 0),
    ("sample 3", "9\nclasses 3 steps 27\n", "=> 9\n", 0),
    (
        "sample 1000",
        "600000\nclasses 1000 steps 204999\n",
        "=> 600000\n",
        0,
    ),
];

/// Each send is a step.
const STEPS: &[Row] = &[
    ("run --steps=4 H.ns", "Hello\n", "=> object Hello\n", 0),
    ("run --steps=3 H.ns", "", "limit: steps\n", 3),
    ("run --steps=1 H.ns", "", "limit: steps\n", 3),
    (
        "run --steps=1000000000000 H.ns",
        "Hello\n",
        "=> object Hello\n",
        0,
    ),
    (
        "run --steps=8 Lines.ns",
        "it's\n\nc\n",
        "=> object Lines\n",
        0,
    ),
    ("run --steps=7 Lines.ns", "it's\n\n", "limit: steps\n", 3),
    ("run --steps=5 Lines.ns", "it's\n", "limit: steps\n", 3),
];

const REFUSED_CHECKS: &[Row] = &[
    ("check H.ns H.ns", "", "H.ns:1:7: DuplicateTop\n", 2),
    (
        "check H.ns H.ns H.ns H.ns H.ns H.ns H.ns H.ns H.ns H.ns H.ns H.ns H.ns H.ns H.ns H.ns",
        "",
        "H.ns:1:7: DuplicateTop\n",
        2,
    ),
    ("check H.ns Empty.ns", "", "Empty.ns:1:1: Syntax\n", 2),
    ("check H.ns Z.ns Empty.ns", "", "Z.ns: Missing\n", 2),
    ("check Empty.ns Z.ns", "", "Empty.ns:1:1: Syntax\n", 2),
    ("check Super.ns Empty.ns", "", "Empty.ns:1:1: Syntax\n", 2),
    (
        "check H.ns Super.ns",
        "",
        "Super.ns:1:21: BareReceiver\n",
        2,
    ),
    (
        "check Super.ns H.ns H.ns",
        "",
        "Super.ns:1:21: BareReceiver\n",
        2,
    ),
    (
        "check --lib Lib.ns",
        "",
        "lib:Collections:1:7: DuplicateTop\n",
        2,
    ),
    (
        "check --all Super.ns H.ns H.ns",
        "",
        "Super.ns:1:21: BareReceiver\nH.ns:1:7: DuplicateTop\n",
        2,
    ),
];

const REFUSED_IMAGES: &[Row] = &[
    (
        "build a.img H.ns Super.ns",
        "",
        "Super.ns:1:21: BareReceiver\n",
        2,
    ),
    ("build H.ns Z.ns", "", "Z.ns: Missing\n", 2),
    ("build --to=Words.ns H.ns", "", "Words.ns: Exists\n", 2),
    ("build --to=H.ns Z.ns", "", "Z.ns: Missing\n", 2),
    ("list --members a.img", "", "a.img: Missing\n", 2),
    ("exec a.img", "", "a.img: Missing\n", 2),
    ("exec H.ns", "", "H.ns: NotAnImage\n", 2),
    ("list a.img", "", "a.img: Missing\n", 2),
    ("list Empty.ns", "", "Empty.ns: NotAnImage\n", 2),
];

const REFUSED_RUNS: &[Row] = &[
    ("run Z.ns", "", "Z.ns: Missing\n", 2),
    ("run --text=T Z.ns", "", "Z.ns: Missing\n", 2),
    ("run --text=T H.ns", "", "T: Missing\n", 2),
    ("eval --text=T 3", "", "T: Missing\n", 2),
    ("eval --text=T super", "", "eval:2:1: BareReceiver\n", 2),
    ("run --lib H.ns Z.ns", "", "Z.ns: Missing\n", 2),
    ("run H.ns Super.ns", "", "Super.ns:1:21: BareReceiver\n", 2),
    (
        "run --lib Lib.ns",
        "",
        "lib:Collections:1:7: DuplicateTop\n",
        2,
    ),
];

/// A file that isn't there is no fault.
const FAILING: &[(Fails, Row)] = &[
    (Fails::Shelf(0), ("run H.ns", "", "", 4)),
    (Fails::Shelf(1), ("check H.ns H.ns", "", "", 4)),
    (Fails::Shelf(0), ("run Z.ns", "", "Z.ns: Missing\n", 2)),
    (Fails::Err(3), ("run H.ns", "Hello\n", "=> ", 5)),
    (Fails::Out(0), ("run H.ns", "", "", 5)),
];

const COMMANDS: Commands = Commands {
    files: FILES,
    tables: &[
        EVALUATED,
        CHECKED,
        SHOWN,
        RUN,
        SAMPLES,
        STEPS,
        REFUSED_CHECKS,
        REFUSED_IMAGES,
        REFUSED_RUNS,
    ],
    failing: FAILING,
};

#[test]
fn commands_leave_what_they_mean(rt: HostRuntime) {
    assert_eq!(rt; first_other(rt.alloc(), &COMMANDS), None);
}

#[test]
fn the_program_tells_of_itself(rt: HostRuntime) {
    let alloc = rt.alloc();
    assert!(rt; all_tell(alloc, &["--help", "-h", "help"], HELP));
    assert!(rt; all_tell(alloc, &["--version", "-V"], VERSION));
    assert!(rt;
        all_tell(
            alloc,
            &["help Overflow"],
            "Overflow: the result doesn't fit 64 bits.\n"
        )
    );
}

/// Whether each of these commands writes that text alone.
fn all_tell(alloc: Global, lines: &[&'static str], text: &'static str) -> bool {
    lines
        .iter()
        .all(|line| leaves(alloc, FILES, (line, text, "", 0)))
}
