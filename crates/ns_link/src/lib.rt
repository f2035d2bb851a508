//! The compiler, and the laws that its code is sound and that the machine does with it what the source means.
//! `specs/Stated.antt` says that the machine on the code of a program comes to the end which the program means, at every
//! limit.
//! Stands on static, gen, verify, model and the moves of the machine; session and run call it.
#![tactic(auto)]

pub mod compile;
pub mod fault;
pub mod laws;
pub mod right;
pub mod sound;
