//! Calls, by a table.

use crate::call::{Lengths, call};
use std::alloc::Global;

/// What stands in a room before a call.
const POINTS: &[u8] = b"........";

/// A call, and what it gives into rooms of eight bytes, which hold points before it.
struct Row {
    words: usize,
    lengths: &'static [u64],
    bytes: &'static [u8],
    /// The number of the status; 7 where there is none.
    status: u8,
    out: &'static [u8],
    err: &'static [u8],
    /// The lengths that are told of both streams.
    told: (u64, u64),
}

const ROWS: [Row; 7] = [
    // A run of statements.
    Row {
        words: 2,
        lengths: &[4, 5],
        bytes: b"eval3 + 4",
        status: 0,
        out: POINTS,
        err: b"=> 7\n...",
        told: (0, 5),
    },
    // A file that is there.
    Row {
        words: 2,
        lengths: &[4, 1, 1, 12],
        bytes: b"showAAclass A = ()",
        status: 2,
        out: POINTS,
        err: b"A:1:13: ",
        told: (0, 15),
    },
    // One that isn't, in a room that is too small.
    Row {
        words: 2,
        lengths: &[5, 1],
        bytes: b"checkA",
        status: 2,
        out: POINTS,
        err: b"A: Missi",
        told: (0, 11),
    },
    // A word that is no text.
    Row {
        words: 1,
        lengths: &[1],
        bytes: b"\xff",
        status: 7,
        out: POINTS,
        err: POINTS,
        told: (0, 0),
    },
    // Bytes that no length takes.
    Row {
        words: 1,
        lengths: &[4],
        bytes: b"check",
        status: 7,
        out: POINTS,
        err: POINTS,
        told: (0, 0),
    },
    // A name without a text.
    Row {
        words: 1,
        lengths: &[4, 1],
        bytes: b"helpA",
        status: 7,
        out: POINTS,
        err: POINTS,
        told: (0, 0),
    },
    // Lengths that come to the bytes only by wrapping.
    Row {
        words: 1,
        lengths: &[5, u64::MAX, 0],
        bytes: b"help",
        status: 7,
        out: POINTS,
        err: POINTS,
        told: (0, 0),
    },
];

#[test]
fn calls_give_what_they_should(rt: HostRuntime) {
    let alloc = rt.alloc();
    assert!(rt; ROWS.iter().all(|row| gives(alloc, row)));
}

fn gives(alloc: Global, row: &Row) -> bool {
    let mut out = *b"........";
    let mut err = *b"........";
    let mut stored = *b"........";
    let mut told = Lengths {
        out: 1,
        err: 1,
        stored: 1,
    };
    let status = match call(
        alloc,
        row.words,
        row.lengths,
        row.bytes,
        &mut out,
        &mut err,
        &mut stored,
        &mut told,
    ) {
        Some(status) => status.exit_code(),
        None => 7,
    };
    let is_given = out.as_slice() == row.out
        && err.as_slice() == row.err
        && stored.as_slice() == POINTS;
    let is_told = (told.out, told.err) == row.told && told.stored == 0;
    status == row.status && is_given && is_told
}
