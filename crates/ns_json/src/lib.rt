//! What commands say, and the one line of JSON that tells it to a host.
//! `specs/Report.antt` says which value of JSON tells what, and `specs/Json.antt` the text of a value.
//! Stands between world and ns_run.
#![tactic(auto)]

pub mod actors;
pub mod audit;
pub mod check;
pub mod json;
pub mod laws;
pub mod object;
pub mod put;
pub mod refusal;
pub mod run;
pub mod saying;
pub mod stats;
pub mod tests;
