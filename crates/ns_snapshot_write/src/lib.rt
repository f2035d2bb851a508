//! Writes the snapshot of a state of a run with its code.
//! `crates/ns_snapshot/specs/Bytes.antt` says which bytes these are (`snapshot_of`).
//! Stands between ns_snapshot and ns_run_snap.
#![tactic(auto)]

pub mod cell;
pub mod frame;
pub mod output;
pub mod part;
pub mod pending;
pub mod room;
pub mod state;
pub mod value;
pub mod variant;
pub mod write;
