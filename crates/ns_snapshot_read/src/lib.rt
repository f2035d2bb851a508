//! Reads the code and the state of a run from the bytes of a snapshot.
//! `crates/ns_snapshot/specs/Snapshot.antt` says what is read of any bytes (`read_data`), and what is asked of the state
//! behind that.
//! Stands between ns_snapshot and ns_machine_restore.
#![tactic(auto)]

pub mod cell;
pub mod field;
pub mod frame;
pub mod pending;
pub mod read;
pub mod state;
pub mod value;
pub mod variant;
