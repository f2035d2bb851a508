//! What a command comes to, whatever the command: its report, and how that is stored and written.
//! `specs/Outcome.antt` says what the files and the streams are afterwards.
//! Stands between base, load, static, gen, verify and ns_run.
#![tactic(auto)]

pub mod cause;
pub mod deliver;
pub mod keep;
pub mod report;
pub mod run;
pub mod stop;
pub mod styled;
