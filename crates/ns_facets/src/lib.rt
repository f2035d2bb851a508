//! The kernel's rows of Manifest, Platform, Kernel, Console and Board.
//! `specs/Facet.antt` says what each row comes to, in the world and on the board.
//! Stands between world, ns_kdata and moves.
#![tactic(auto)]

pub mod board;
mod console;
pub mod facet;
pub mod laws;
mod platform;
pub mod row;
