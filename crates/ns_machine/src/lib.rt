//! The machine as a host sees it: a run of verified code, from its start on.
//! `specs/Machine.antt` says what a machine shows, and what holds of it at every moment.
//! Stands between ns_machine_turns and session, run.
#![tactic(auto)]

mod advancing;
pub mod asking;
mod living;
pub mod machine;
mod memory;
mod own;
mod restoring;
mod sites;
pub mod stage;
mod turning;
mod waiting;
