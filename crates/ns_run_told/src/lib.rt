//! What a run tells in parts: how it ended, what it printed, and what it used.
//! `specs/Told.antt` says the parts of a run that has ended, and `specs/Laws.antt` that its report line tells the same.
//! Stands between machine, json, run_code and ns_run.
#![tactic(auto)]

pub mod end;
pub mod laws;
pub mod names;
pub mod told;
