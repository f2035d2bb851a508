//! The sends of a program that nothing can answer.
//! `specs/Unanswered.antt` says which they are: those of a selector that no class has and no row of the kernel.
//! Stands between ns_gen and run.
#![tactic(auto)]

pub mod answered;
pub mod laws;
pub mod order;
pub mod sent;
pub mod unanswered;
