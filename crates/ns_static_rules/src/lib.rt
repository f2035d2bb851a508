//! The rules on a program, and the faults of its expressions that its text alone shows.
//! `specs/Rules.antt` says each rule, for the part of a tree at which it looks.
//! Stands between scope and ns_static.
#![tactic(auto)]

pub mod bodies;
pub mod checker;
pub mod expressions;
pub mod fault;
pub mod kept;
pub mod laws;
pub mod least;
pub mod rules;
