//! Several applications from their files to what is told of them.
//! `specs/Joint.antt` says what is told: how each has ended when all have, or the first refusal.
//! Stands between load, static, ns_session and run.
#![tactic(auto)]

pub mod fault;
pub mod joint;
pub mod laws;
mod making;
mod parts;
pub mod source;
mod telling;
pub mod text;
