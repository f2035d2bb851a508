//! Code prepared for running: made once from verified code, and read in constant time from then on.
//! `specs/Plan.antt` says when a plan is that of a code, and what its steps are.
//! Stands between verify and ns_machine_sends.
#![tactic(auto)]

mod index;
pub mod kept_step;
pub mod laws;
mod making;
mod members;
mod outers;
pub mod packed;
mod packed_steps;
pub mod plan;
mod privates;
mod room;
pub mod row;
mod spelled;
pub mod step;
mod steps;
pub mod tables;
