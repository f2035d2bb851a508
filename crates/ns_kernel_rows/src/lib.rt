//! The kernel's rows as actions of a run: what answers a send that finds one, and where control goes from there.
//! `crates/ns_moves/specs/Kernel.antt` says what each row comes to (`row_reached`).
//! Stands between moves and the sends of the machine.
#![tactic(auto)]

pub mod blocks;
pub mod classes;
pub mod reached;
pub mod row;
