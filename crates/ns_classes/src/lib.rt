//! The making of classes, and where objects keep the entries of each class.
//! `specs/Apply.antt` says which class is made over which superclass, or the first check that fails.
//! Stands between world and find, kernel and moves.
#![tactic(auto)]

pub mod apply;
pub mod laws;
pub mod layout;
pub mod nested;
