//! What a command does with a program: its files, or one text alone, to the report.
//! `specs/Programs.antt` says what is stored, what is written and the status, over the texts of the files (`of_texts`).
//! Stands between load, static, print, test, run_code, ns_run_input and ns_run.
#![tactic(auto)]

mod acting;
pub mod alone;
mod build;
mod checks;
pub mod files;
pub mod guard;
pub mod layout;
mod parts;
mod replay;
pub mod run;
mod sends;
mod snap;
pub mod task;
mod testing;
