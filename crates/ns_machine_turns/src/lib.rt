//! Turns of the machine: as many moves as so many steps allow, in one loop.
//! `crates/ns_moves/specs/Turn.antt` says what state a turn leaves (`Turns`).
//! Stands between ns_machine_returns, ns_machine_quick and ns_machine.
#![tactic(auto)]

pub mod acting;
mod blockwise;
pub mod charging;
pub mod fetching;
pub mod laws;
pub mod moving;
mod performing;
pub mod quickly;
pub mod repeating;
pub mod resending;
pub mod stepping;
pub mod turning;
mod way;
