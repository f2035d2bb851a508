//! The rounds of actors: those of a program are started, take turns in order until all rest, and what became of them is told.
//! `specs/Source.antt` says what comes of the actors of a program, and `specs/Left.antt` how much actors can still do.
//! Stands between the calls of actors, link and ns_run_files.
#![tactic(auto)]

pub mod fault;
pub mod laws;
mod parts;
pub mod rounds;
pub mod source;
pub mod start;
pub mod telling;
pub mod told;
