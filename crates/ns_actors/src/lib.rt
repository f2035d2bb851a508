//! Actors: machines that share nothing and send each other letters.
//! `specs/Turn.antt` says what a turn of one makes of all, and `specs/Alone.antt` where each comes on its own.
//! Stands on run and session, for what an application is and where its run comes to rest; no code calls it.
#![tactic(auto)]

pub mod fault;
pub mod laws;
pub mod letter;
pub mod told;
pub mod turn;
