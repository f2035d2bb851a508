//! Writes the lines of expressions, in one walk over the tree.
//! `specs/Sending.antt` says what is written of a node, and of a message behind its receiver.
//! Stands between ns_gen_draft and ns_gen_bodies.
#![tactic(auto)]

pub mod cascades;
pub mod expressions;
pub mod literals;
pub mod primaries;
pub mod reach;
pub mod receiver;
pub mod sets;
