//! All static faults of a program, in their order.
//! `specs/All.antt` says which they are: those of the whole tree, each once.
//! Stands between ns_static and run.
#![tactic(auto)]

pub mod all;
pub mod laws;
pub mod order;
