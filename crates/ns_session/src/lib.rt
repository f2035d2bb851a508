//! A session: applications that take turns, each with a machine of its own, and the board that some of them share.
//! `specs/Session.antt` says what one more application and one more turn make of a session.
//! Stands between machine, link and ns_session_files.
#![tactic(auto)]

pub mod fault;
pub mod laws;
mod member;
pub mod robin_laws;
pub mod rounds;
pub mod session;
