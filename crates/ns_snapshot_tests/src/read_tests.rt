//! What is read of snapshots: the same that was written, and the first fault of each change.

use crate::sample::{SNAPSHOT, changed};
use ns_frozen::fault::RestoreFault;
use ns_snapshot::fault::SnapFault;
use ns_snapshot_read::read::{judged, read_data};
use ns_snapshot_write::write::{WriteFault, write_snapshot};
use std::alloc::Global;

#[test]
fn what_is_read_is_written_again(rt: HostRuntime) {
    assert!(rt; is_written_again(rt.alloc()));
}

fn is_written_again(alloc: Global) -> bool {
    let Ok(snapshot) = read_data(alloc, &SNAPSHOT) else {
        return false;
    };
    let most = SNAPSHOT.len() as u32;
    let Ok(bytes) = write_snapshot(alloc, snapshot.code.code(), &snapshot.frozen, most) else {
        return false;
    };
    let less = write_snapshot(alloc, snapshot.code.code(), &snapshot.frozen, most - 1);
    bytes.as_slice() == SNAPSHOT.as_slice() && less.err() == Some(WriteFault::TooLarge)
}

#[test]
fn a_cut_snapshot_is_truncated(rt: HostRuntime) {
    assert!(rt; are_truncated(rt.alloc()));
}

fn are_truncated(alloc: Global) -> bool {
    'lengths: for length in 0..SNAPSHOT.len() {
        let fault = if length < 4 {
            SnapFault::NotASnapshot
        } else {
            SnapFault::Truncated
        };
        if read_data(alloc, &SNAPSHOT[..length]).err() != Some(fault) {
            return false;
        }
    }
    true
}

#[test]
fn bytes_behind_a_snapshot_are_refused(rt: HostRuntime) {
    assert!(rt; is_trailing(rt.alloc()));
}

fn is_trailing(alloc: Global) -> bool {
    let Ok(mut bytes) = Vec::from_slice(alloc, &SNAPSHOT) else {
        return false;
    };
    bytes.push(0).is_ok() && read_data(alloc, &bytes).err() == Some(SnapFault::Trailing)
}

/// A place, the bytes that stand there, and what is wrong then.
type Row = (usize, &'static [u8], Option<SnapFault>);

const CHANGES: &[Row] = &[
    (0, b"n", Some(SnapFault::NotASnapshot)),
    (5, &[0], Some(SnapFault::BadVersion)),
    (5, &[2], Some(SnapFault::BadVersion)),
    (6, &[1], Some(SnapFault::Truncated)),
    // The image: its mark, its version, and code that isn't sound. The bytes of the state come first.
    (10, b"n", Some(SnapFault::BadImage)),
    (15, &[1], Some(SnapFault::BadImage)),
    (204, &[13], Some(SnapFault::BadImage)),
    // Limits, and the count of cells.
    (
        219,
        &[0, 0, 0, 0, 0, 0, 0, 0],
        Some(SnapFault::BadField(219)),
    ),
    (219, &[1], Some(SnapFault::BadField(219))),
    (231, &[4], Some(SnapFault::BadField(227))),
    (240, &[2], Some(SnapFault::BadField(235))),
    (243, &[255], Some(SnapFault::BadField(243))),
    (234, &[9], None),
    (234, &[8], Some(SnapFault::BadField(414))),
    (417, &[101], Some(SnapFault::BadField(414))),
    // Flags, and the numbers of variants.
    (283, &[2], Some(SnapFault::BadField(283))),
    (286, &[255], Some(SnapFault::BadField(286))),
    (287, &[4], Some(SnapFault::BadField(287))),
    (374, &[2], Some(SnapFault::BadField(374))),
    (375, &[3], Some(SnapFault::BadField(375))),
    (413, &[3], Some(SnapFault::BadField(413))),
    (418, &[9], Some(SnapFault::BadField(418))),
    (435, &[7], Some(SnapFault::BadField(435))),
    (436, &[2], Some(SnapFault::BadField(436))),
    (487, &[6], Some(SnapFault::BadField(487))),
    (508, &[5], Some(SnapFault::BadField(508))),
    (554, &[2], Some(SnapFault::BadField(554))),
    (555, &[3], Some(SnapFault::BadField(555))),
    (565, &[11], Some(SnapFault::BadField(565))),
    (589, &[2], Some(SnapFault::BadField(589))),
    (619, &[19], Some(SnapFault::BadField(619))),
    // A phase may be any byte, and a count has to be there.
    (373, &[9], None),
    (359, &[255], Some(SnapFault::Truncated)),
    (504, &[255, 255, 255, 255], Some(SnapFault::Truncated)),
    (507, &[1], Some(SnapFault::Trailing)),
];

#[test]
fn the_first_fault_is_named(rt: HostRuntime) {
    assert!(rt; are_refused(rt.alloc()));
}

fn are_refused(alloc: Global) -> bool {
    'rows: for (at, bytes, fault) in CHANGES {
        let Ok(snapshot) = changed(alloc, *at, bytes) else {
            return false;
        };
        if read_data(alloc, &snapshot).err() != *fault {
            return false;
        }
    }
    true
}

/// The first part of a state that can't be, and the fault of a snapshot with it.
const JUDGED: &[(RestoreFault, SnapFault)] = &[
    (RestoreFault::BadLimits, SnapFault::BadRest),
    (RestoreFault::BadCell(3), SnapFault::BadCell(3)),
    (RestoreFault::BadFrame(4), SnapFault::BadFrame(4)),
    (RestoreFault::BadRest, SnapFault::BadRest),
];

#[test]
fn a_state_that_cant_be_is_a_fault(rt: HostRuntime) {
    assert!(rt; are_judged(rt.alloc()));
}

fn are_judged(alloc: Global) -> bool {
    'rows: for (part, fault) in JUDGED {
        let Ok(snapshot) = read_data(alloc, &SNAPSHOT) else {
            return false;
        };
        if judged(snapshot, Some(*part)).err() != Some(*fault) {
            return false;
        }
    }
    match read_data(alloc, &SNAPSHOT) {
        Ok(snapshot) => judged(snapshot, None).is_ok(),
        Err(_) => false,
    }
}
