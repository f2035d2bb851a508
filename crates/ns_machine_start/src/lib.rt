//! The start of a run: the cells that it makes before its first send.
//! `crates/ns_moves/specs/Start.antt` says which cells these are, and in which order.
//! Stands between ns_moves and ns_machine.
#![tactic(auto)]

mod cells;
pub mod start;
mod texts;
