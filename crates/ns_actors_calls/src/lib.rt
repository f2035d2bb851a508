//! The calls of actors: a host adds them, posts letters, gives turns, and is told what became of them.
//! `specs/Parts.antt` says how an outbox is read, `specs/Steps.antt` what the steps of a turn ask and leave, `specs/Posting.antt` posting.
//! Stands between the laws of actors and their rounds.
#![tactic(auto)]

pub mod actor;
pub mod actors;
pub mod letter;
pub mod letters;
pub mod outbox;
mod posting;
pub mod stage;
mod turns;
