//! Snapshots: the bytes of the state of a run with its code, and both read from bytes.
//! `specs/Bytes.antt` says the layout, field by field, and `specs/Snapshot.antt` what is read of any bytes.
//! Stands between image, frozen and ns_snapshot_write, ns_snapshot_read.
#![tactic(auto)]

pub mod fault;
pub mod laws;
pub mod snapshot;
