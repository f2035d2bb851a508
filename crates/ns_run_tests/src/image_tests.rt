//! Images: what is built of files, and what is done with it.

use crate::command::{Commands, Fails, Row, first_other};

/// An image of version 1, of a class A whose main method answers 7.
const SEVEN: &[u8] =
    b"NSPK\x00\x01\x00\x00\x00\x04\x00\x00\x00\x01A\x00\x00\x00\x0dpackageUsing:\x00\x00\x00\x03new\x00\x00\x00\x0amain:args:\x00\x00\x00\x00\x00\x00\x00\x01\x00\x00\x00\x00\x00\x00\x00\x00\x00\x00\x00\x01\x01\x00\x00\x00\x00\x00\x00\x00\x00\x00\x00\x00\x02\x00\x00\x00\x00\x00\x01\x00\x00\x00\x03\x00\x00\x00\x00\x01\x00\x00\x00\x00\x00\x02\x02\x00\x00\x00\x00\x00\x00\x00\x00\x00\x01\x01\x00\x00\x00\x00\x00\x00\x02\x13\x00\x16\x00\x00\x00\x00\x00\x00\x00\x00\x00\x00\x02\x02\x00\x00\x01\x00\x00\x00\x02\x04\x00\x00\x00\x00\x00\x00\x00\x07\x15";

const LISTING: &str = "class 0 A
body 0 init class 0 params 1 locals 1
  local 0 t0
  0 InitSuper 0
  1 ReturnSelf
body 1 method class 0 params 2 locals 2
  local 0 t0
  local 1 t1
  0 PushInt 7
  1 Return
";

/// A block that returns to a method which has ended.
const DEAD: &[u8] = b"class D packageUsing: m = () (
make = (^[^1])
public main: p args: a = (^make value)
)
";

/// The files that each command finds.
const FILES: &[(&str, &[u8])] = &[("a.img", SEVEN), ("D.ns", DEAD)];

/// An error of an image that was built has its place.
const DONE: &[Row] = &[
    ("exec a.img", "", "=> 7\n", 0),
    ("exec --steps=1 a.img", "", "limit: steps\n", 3),
    ("list a.img", LISTING, "", 0),
    ("build d.img D.ns", "", "", 0),
    ("exec d.img", "", "D.ns:3:33: DeadReturn Block value\n", 1),
];

const FAILING: &[(Fails, Row)] = &[
    (Fails::Shelf(0), ("build d.img D.ns", "", "", 4)),
    (Fails::Shelf(1), ("build d.img D.ns", "", "", 5)),
    (Fails::Shelf(0), ("exec a.img", "", "", 4)),
    (Fails::Err(2), ("exec a.img", "", "=>", 5)),
    (Fails::Shelf(0), ("list a.img", "", "", 4)),
    (Fails::Out(7), ("list a.img", "class 0", "", 5)),
    (Fails::Out(5), ("show D.ns", "class", "", 5)),
    (Fails::Shelf(1), ("check D.ns D.ns", "", "", 4)),
    (Fails::Shelf(1), ("run D.ns D.ns", "", "", 4)),
];

const COMMANDS: Commands = Commands {
    files: FILES,
    tables: &[DONE],
    failing: FAILING,
};

#[test]
fn images_are_built_run_and_listed(rt: HostRuntime) {
    assert_eq!(rt; first_other(rt.alloc(), &COMMANDS), None);
}
