//! A program that its host opened and keeps as bytes: it has turns and is asked, and each call tells it again as bytes.
//! `specs/Opened.antt` says what the calls answer.
//! Stands between ns_reply, ns_session, ns_machine_restore and ns_embed.
#![tactic(auto)]

pub mod ask;
pub mod host;
pub mod laws;
pub mod lay;
pub mod open;
pub mod program;
