//! Restoring a machine: its run from plain data, and a machine from the bytes of a snapshot.
//! `specs/Restored.antt` says what is answered, and `crates/ns_frozen/specs/Fault.antt` which data is none of a run.
//! Stands between ns_machine, ns_frozen_valid, ns_snapshot_read and a host.
#![tactic(auto)]

pub mod laws;
pub mod restore;
