//! What the program tells of itself: how it is used, what a command does, what the name of a cause means.
//! `specs/Topics.antt` says what there is a text on, and which one (`text_of`).
//! Stands on nothing but std; ns_run_words and ns_run stand on it.
#![tactic(auto)]

mod commands;
mod errors;
mod images;
mod limits;
mod programs;
mod sources;
pub mod topics;
pub mod usage;
