//! The state of a run as plain data, both ways, and which data stands for a state in which a run can be.
//! `specs/Fault.antt` says the first part of such data that can't be (`fault_of`).
//! Stands between ns_moves and ns_snapshot.
#![tactic(auto)]

pub mod cell;
pub mod fault;
pub mod frame;
pub mod frozen;
pub mod laws;
pub mod lent;
pub mod pending;
pub mod plain;
pub mod pools;
pub mod stored;
