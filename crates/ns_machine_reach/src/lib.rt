//! Laws of reach: a run touches the cells that were reached from where it stood, and those that it makes, and no
//! others.
//! `specs/Reached.antt` says it of moves, turns and sends (`StaysInReach`).
//! Stands between ns_moves and ns_machine.
#![tactic(auto)]

pub mod laws;
