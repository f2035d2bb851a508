//! The run of a program that is paused: a turn of so many steps, and the snapshot of where it stands then.
//! `specs/Snapped.antt` says which bytes these are, or what is too large for them, and `specs/Resumed.antt` what goes on from them.
//! Stands between ns_run_code, ns_session, ns_snapshot_write, ns_machine_restore and ns_run_files, ns_run_image.
#![tactic(auto)]

pub mod laws;
pub mod resume;
pub mod snap;
