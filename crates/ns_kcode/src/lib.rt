//! The kernel's methods that evaluate blocks, one action at a time.
//! `specs/Next.antt` says what such a method does next.
//! Stands between world and moves.
#![tactic(auto)]

pub mod laws;
pub mod next;
pub mod state;
