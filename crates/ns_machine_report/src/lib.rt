//! What a run tells of itself: the text of a value, and the line that reports how it ended.
//! `crates/ns_moves/specs/Report.antt` says both.
//! Stands between moves and ns_machine.
#![tactic(auto)]

pub mod line;
pub mod output;
pub mod value;
