//! One call of the program for a host that holds everything in its own memory.
//! `specs/Host.antt` says what it asks for, and what it is given.
//! Stands on run; ns_embed offers it to C.
#![tactic(auto)]

pub mod asked;
pub mod call;
#[cfg(test)]
mod call_tests;
