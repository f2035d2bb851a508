//! The run of admitted code as it is asked for: its inputs, which are the texts that options name, are read, and each is an argument more.
//! `specs/Input.antt` says what becomes of code, arguments and the texts of inputs (`code_run`).
//! Stands between words, run_told, ns_run_outcome and what runs programs and images.
#![tactic(auto)]

pub mod run;
pub mod task;
