//! The verifier: code is admitted where it is sound, and else its first fault is told.
//! `specs/Verify.antt` says which code is sound, and `specs/Causes.antt` has a function for each cause.
//! Stands between code and the machine, which takes verified code alone.
#![tactic(auto)]

mod around;
pub mod chains;
mod classes;
pub mod fault;
pub mod faults;
pub mod heights;
mod instructions;
pub mod laws;
mod tables;
pub mod verify;
