//! The run of a program that is gone through by moves, and the line of each.
//! `specs/Replayed.antt` says which lines these are, or what of the program is too large, and `specs/Moves.antt` where a move leads.
//! Stands between ns_run_code, ns_replay and ns_run_files.
#![tactic(auto)]

pub mod moves;
pub mod replay;
