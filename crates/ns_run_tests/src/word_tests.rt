//! Words that are no command: the number of the first one that is bad.

use crate::command::{Commands, Row, first_other};
use crate::command_tests::FILES;

const OF_RUNS: &[Row] = &[
    ("run", "", "nspk: bad word 1\n", 2),
    ("run --steps=0 H.ns", "", "nspk: bad word 1\n", 2),
    ("run --steps=07 H.ns", "", "nspk: bad word 1\n", 2),
    (
        "run --steps=1000000000001 H.ns",
        "",
        "nspk: bad word 1\n",
        2,
    ),
    ("run --steps= H.ns", "", "nspk: bad word 1\n", 2),
    ("run --steps=5", "", "nspk: bad word 2\n", 2),
    ("run --steps=5 --steps=5 H.ns", "", "nspk: bad word 2\n", 2),
    ("run H.ns --steps=5", "", "nspk: bad word 2\n", 2),
    ("run ''", "", "nspk: bad word 1\n", 2),
    ("run --out=16777217 H.ns", "", "nspk: bad word 1\n", 2),
    (
        "run --lib --cells=64000001 H.ns",
        "",
        "nspk: bad word 2\n",
        2,
    ),
    (
        "run --depth=1 --out=1 --depth=2 H.ns",
        "",
        "nspk: bad word 3\n",
        2,
    ),
    ("run --", "", "nspk: bad word 1\n", 2),
    ("run - H.ns", "", "nspk: bad word 1\n", 2),
];

const OF_CHECKS: &[Row] = &[
    ("check --steps=5 H.ns", "", "nspk: bad word 1\n", 2),
    ("check H.ns --", "", "nspk: bad word 2\n", 2),
    ("show --lib H.ns", "", "nspk: bad word 1\n", 2),
    ("show H.ns H.ns", "", "nspk: bad word 2\n", 2),
    ("check", "", "nspk: bad word 1\n", 2),
    ("check -a", "", "nspk: bad word 1\n", 2),
    ("check H.ns -b", "", "nspk: bad word 2\n", 2),
    ("check H.ns --lib", "", "nspk: bad word 2\n", 2),
    ("check --lib", "", "nspk: bad word 2\n", 2),
    ("check --lib --lib H.ns", "", "nspk: bad word 2\n", 2),
    ("check '' H.ns", "", "nspk: bad word 1\n", 2),
    ("show", "", "nspk: bad word 1\n", 2),
    ("show H.ns --steps=5", "", "nspk: bad word 2\n", 2),
    (
        "check H.ns H.ns H.ns H.ns H.ns H.ns H.ns H.ns H.ns H.ns H.ns H.ns H.ns H.ns H.ns H.ns H.ns",
        "",
        "nspk: bad word 17\n",
        2,
    ),
];

const OF_IMAGES: &[Row] = &[
    ("build", "", "nspk: bad word 1\n", 2),
    ("build a.img", "", "nspk: bad word 2\n", 2),
    ("build --steps=5 a.img H.ns", "", "nspk: bad word 1\n", 2),
    ("build a.img --lib", "", "nspk: bad word 2\n", 2),
    ("exec", "", "nspk: bad word 1\n", 2),
    ("exec --lib a.img", "", "nspk: bad word 1\n", 2),
    ("exec a.img b.img", "", "nspk: bad word 2\n", 2),
    ("list", "", "nspk: bad word 1\n", 2),
    ("list a.img --", "", "nspk: bad word 2\n", 2),
];

const OF_OTHERS: &[Row] = &[
    ("", "", "nspk: bad word 0\n", 2),
    ("--help run", "", "nspk: bad word 1\n", 2),
    ("sample", "", "nspk: bad word 1\n", 2),
    ("sample 0", "", "nspk: bad word 1\n", 2),
    ("sample 01", "", "nspk: bad word 1\n", 2),
    ("sample 1001", "", "nspk: bad word 1\n", 2),
    ("sample 1 2", "", "nspk: bad word 2\n", 2),
    ("sample --lib 1", "", "nspk: bad word 1\n", 2),
    ("walk H.ns", "", "nspk: bad word 0\n", 2),
];

const COMMANDS: Commands = Commands {
    files: FILES,
    tables: &[OF_RUNS, OF_CHECKS, OF_IMAGES, OF_OTHERS],
    failing: &[],
};

#[test]
fn the_first_bad_word_is_told(rt: HostRuntime) {
    assert_eq!(rt; first_other(rt.alloc(), &COMMANDS), None);
}
