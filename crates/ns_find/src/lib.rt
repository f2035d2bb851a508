//! Lookup: what a selector finds, from where a send starts; and ways out that are kept.
//! `specs/Find.antt` says through which members a lookup goes, and what it finds among them.
//! Stands between classes and moves.
#![tactic(auto)]

pub mod find;
pub mod found;
mod kernel;
pub mod laws;
pub mod members;
pub mod memo;
mod passing;
pub mod ways;
