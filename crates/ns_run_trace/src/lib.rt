//! The trace of a run: the sends that were open before the move that ended it.
//! `specs/Before.antt` says which state that move leaves (`before_end`), and `specs/Trace.antt` which of its sends are told, and their lines.
//! Stands between ns_run_told, machine and ns_run.
#![tactic(auto)]

pub mod before;
pub mod laws;
pub mod lines;
pub mod once;
pub mod site;
pub mod trace;
