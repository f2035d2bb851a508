//! Sends by the quick way: those that are made most are done by registers alone, or not at all.
//! `crates/ns_machine_core/specs/Tried.antt` says so: what such a send leads to is the move, or nothing has changed but
//! kept lookups.
//! Stands between ns_machine_sends and ns_machine_turns.
#![tactic(auto)]

pub mod arrays;
mod blocks;
pub mod booleans;
pub mod giving;
pub mod integers;
mod looping;
mod nested;
mod objects;
mod opening;
pub mod private;
mod receiving;
mod rows;
mod slots;
pub mod texts;
pub mod values;
