//! The tests of a program: each runs alone, in a machine of its own.
//! `specs/Tests.antt` says what comes of them, and `specs/Alone.antt` the run and the line of each.
//! Stands between machine, run and the top call.
#![tactic(auto)]

pub mod alone;
pub mod laws;
pub mod opening;
pub mod report;
pub mod source;
pub mod tests;
pub mod written;
