//! Actors of one program: what is told of them, as text and in JSON, and what is refused.

use crate::command::{Commands, Fails, Row, first_other};

/// One whose letters count down, and whose other selectors lead to each way to stop.
const COUNTS: &[u8] = b"class P packageUsing: m = () (
public main: p args: a = (^self)
public hit: n = (n = 0 ifTrue: [^{}]. ^{{n \\\\ 2. #hit:. n - 1}})
public bad: n = (^7)
public far: n = (^{{0. #hit:. 0}. {n. #hit:. 0}})
public two: n = (^{{0. #at:put:. n}})
public own: n = (^{{0. #hit:. self}})
public fail: n = (^n // 0)
public spin: n = ([true] whileTrue: [])
)
";

/// Three in a row, of which the first hands out numbers, the second lets odd ones pass, and the third adds them up.
const PIPE: &[u8] = b"class Pipe packageUsing: m = (| private c ::= nil. private sum ::= 0. |) (
public main: p args: a = (c:: p console)
public from: n = (n = 0 ifTrue: [^nil]. ^{{1. #odd:. n}. {0. #from:. n - 1}})
public odd: n = (^n \\\\ 2 = 1 ifTrue: [{{2. #add:. n}}] ifFalse: [nil])
public add: n = (sum:: sum + n. c print: n; print: ' makes '; printLine: sum. ^nil)
)
";

/// Two that send each other a number until it is 0.
const PING: &[u8] = b"class Ping packageUsing: m = (| private c ::= nil. |) (
public main: p args: a = (c:: p console)
public ping: n = (c print: 'ping '; printLine: n. ^{{1. #pong:. n - 1}})
public pong: n = (c print: 'pong '; printLine: n. ^n > 0 ifTrue: [{{0. #ping:. n - 1}}] ifFalse: [nil])
)
";

/// One whose opening fails.
const LATE: &[u8] =
    b"class Late packageUsing: m = () (public main: p args: a = (p console print: 'x'. ^a at: 1))";

const FILES: &[(&str, &[u8])] = &[
    ("P.ns", COUNTS),
    ("Pipe.ns", PIPE),
    ("Ping.ns", PING),
    ("Late.ns", LATE),
    ("Empty.ns", b""),
];

/// Those whose actors all rest.
const RESTING: &[Row] = &[
    (
        "actors 2 hit: 3 P.ns",
        "actor 0 taken 2\nactor 1 taken 2\n",
        "",
        0,
    ),
    (
        "actors 2 other: 5 P.ns",
        "actor 0 taken 1\nactor 1 taken 0\n",
        "",
        0,
    ),
    (
        "actors 2 far: 1 P.ns",
        "actor 0 taken 2\nactor 1 taken 1\n",
        "",
        0,
    ),
    (
        "actors 3 from: 5 Pipe.ns",
        "actor 0 taken 6\nactor 1 taken 5\nactor 2 taken 3\n5 makes 5\n3 makes 8\n1 makes 9\n",
        "",
        0,
    ),
    (
        "actors 2 ping: 3 Ping.ns",
        "actor 0 taken 2\nping 3\nping 1\nactor 1 taken 2\npong 2\npong 0\n",
        "",
        0,
    ),
    (
        "actors 2 ping: -9223372036854775807 Ping.ns",
        "actor 0 taken 1\nping -9223372036854775807\nactor 1 taken 1\npong -9223372036854775808\n",
        "",
        0,
    ),
    (
        "actors --json 2 ping: 1 Ping.ns",
        "{\"status\":\"acted\",\"actors\":[{\"status\":\"rests\",\"output\":\"ping 1\\u000a\",\"taken\":1},{\"status\":\"rests\",\"output\":\"pong 0\\u000a\",\"taken\":1}]}\n",
        "",
        0,
    ),
];

/// Those of which one stops.
const STOPPING: &[Row] = &[
    (
        "actors 1 bad: 0 P.ns",
        "actor 0 taken 1\nstopped: outbox\n",
        "",
        1,
    ),
    (
        "actors 1 hit: 3 P.ns",
        "actor 0 taken 1\nstopped: outbox\n",
        "",
        1,
    ),
    (
        "actors 2 far: 2 P.ns",
        "actor 0 taken 1\nstopped: outbox\nactor 1 taken 0\n",
        "",
        1,
    ),
    (
        "actors 2 far: -1 P.ns",
        "actor 0 taken 1\nstopped: outbox\nactor 1 taken 0\n",
        "",
        1,
    ),
    (
        "actors 1 two: 1 P.ns",
        "actor 0 taken 1\nstopped: outbox\n",
        "",
        1,
    ),
    (
        "actors 1 own: 1 P.ns",
        "actor 0 taken 1\nstopped: outbox\n",
        "",
        1,
    ),
    (
        "actors 2 fail: 5 P.ns",
        "actor 0 taken 1\nstopped: P.ns:8:22: ZeroDivide Integer //\nactor 1 taken 0\n",
        "",
        1,
    ),
    (
        "actors --steps=2000 3 spin: 0 P.ns",
        "actor 0 taken 1\nstopped: limit: steps\nactor 1 taken 0\nactor 2 taken 0\n",
        "",
        1,
    ),
    (
        "actors --steps=9 2 hit: 9 P.ns",
        "actor 0 taken 2\nstopped: limit: steps\nactor 1 taken 1\n",
        "",
        1,
    ),
    (
        "actors --steps=1 2 hit: 9 P.ns",
        "actor 0 taken 0\nstopped: limit: steps\nactor 1 taken 0\nstopped: limit: steps\n",
        "",
        1,
    ),
    (
        "actors --cells=5 1 hit: 3 P.ns",
        "actor 0 taken 0\nstopped: limit: cells\n",
        "",
        1,
    ),
    (
        "actors --cells=13 2 hit: 3 P.ns",
        "actor 0 taken 1\nstopped: limit: cells\nactor 1 taken 0\n",
        "",
        1,
    ),
    (
        "actors --out=5 2 ping: 5 Ping.ns",
        "actor 0 taken 1\nping stopped: limit: out\nactor 1 taken 0\n",
        "",
        1,
    ),
    (
        "actors 1 hit: 1 Late.ns",
        "actor 0 taken 0\nxstopped: Late.ns:1:85: OutOfRange Array at:\n",
        "",
        1,
    ),
    (
        "actors --lib 1 + -9223372036854775808 P.ns",
        "actor 0 taken 1\nstopped: image: NotUnderstood P +\n",
        "",
        1,
    ),
    (
        "actors --json 1 bad: 0 P.ns",
        "{\"status\":\"acted\",\"actors\":[{\"status\":\"outbox\",\"output\":\"\",\"taken\":1}]}\n",
        "",
        1,
    ),
    (
        "actors --json 1 fail: 3 P.ns",
        "{\"status\":\"acted\",\"actors\":[{\"status\":\"error\",\"kind\":\"ZeroDivide\",\"file\":\"P.ns\",\"line\":8,\"col\":22,\"class\":\"Integer\",\"selector\":\"//\",\"output\":\"\",\"taken\":1}]}\n",
        "",
        1,
    ),
    (
        "actors --json --steps=99 2 spin: 3 P.ns",
        "{\"status\":\"acted\",\"actors\":[{\"status\":\"limit\",\"limit\":\"steps\",\"output\":\"\",\"taken\":1},{\"status\":\"rests\",\"output\":\"\",\"taken\":0}]}\n",
        "",
        1,
    ),
];

/// Those whose words are bad, by the number of the first that is.
const BAD_WORDS: &[Row] = &[
    ("actors", "", "nspk: bad word 1\n", 2),
    ("actors 1", "", "nspk: bad word 2\n", 2),
    ("actors 1 hit:", "", "nspk: bad word 3\n", 2),
    ("actors 1 hit: 3", "", "nspk: bad word 4\n", 2),
    ("actors 0 hit: 3 P.ns", "", "nspk: bad word 1\n", 2),
    ("actors 17 hit: 3 P.ns", "", "nspk: bad word 1\n", 2),
    ("actors 01 hit: 3 P.ns", "", "nspk: bad word 1\n", 2),
    ("actors 2 hit 3 P.ns", "", "nspk: bad word 2\n", 2),
    ("actors 2 at:put: 3 P.ns", "", "nspk: bad word 2\n", 2),
    ("actors 2 hit: 03 P.ns", "", "nspk: bad word 3\n", 2),
    ("actors 2 hit: -0 P.ns", "", "nspk: bad word 3\n", 2),
    (
        "actors 2 hit: 9223372036854775808 P.ns",
        "",
        "nspk: bad word 3\n",
        2,
    ),
    (
        "actors 2 hit: -9223372036854775809 P.ns",
        "",
        "nspk: bad word 3\n",
        2,
    ),
    (
        "actors 2 --steps=5 hit: 3 P.ns",
        "",
        "nspk: bad word 2\n",
        2,
    ),
    (
        "actors --cells=4000001 2 hit: 3 P.ns",
        "",
        "nspk: bad word 1\n",
        2,
    ),
    (
        "actors --depth=10001 2 hit: 3 P.ns",
        "",
        "nspk: bad word 1\n",
        2,
    ),
    ("actors 2 hit: 3 P.ns -- x", "", "nspk: bad word 5\n", 2),
];

/// Those whose program is refused.
const REFUSED: &[Row] = &[
    ("actors 1 hit: 3 Z.ns", "", "Z.ns: Missing\n", 2),
    (
        "actors 1 hit: 3 P.ns Empty.ns",
        "",
        "Empty.ns:1:1: Syntax\n",
        2,
    ),
    (
        "actors 1 hit: 3 P.ns P.ns",
        "",
        "P.ns:1:7: DuplicateTop\n",
        2,
    ),
    (
        "actors --json 1 hit: 3 Z.ns",
        "{\"status\":\"refused\",\"cause\":\"Missing\",\"file\":\"Z.ns\"}\n",
        "",
        2,
    ),
];

/// A file that can't be read, and an output that takes no more.
const FAILING: &[(Fails, Row)] = &[
    (Fails::Shelf(0), ("actors 2 hit: 3 P.ns", "", "", 4)),
    (Fails::Out(9), ("actors 2 hit: 3 P.ns", "actor 0 t", "", 5)),
];

const COMMANDS: Commands = Commands {
    files: FILES,
    tables: &[RESTING, STOPPING, BAD_WORDS, REFUSED],
    failing: FAILING,
};

#[test]
fn actors_leave_what_they_mean(rt: HostRuntime) {
    assert_eq!(rt; first_other(rt.alloc(), &COMMANDS), None);
}
