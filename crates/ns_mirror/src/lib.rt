//! The kernel's rows of Mirrors and Mirror.
//! `specs/Mirror.antt` says what each row comes to.
//! Stands between classes, ns_kdata and moves.
#![tactic(auto)]

mod arrays;
pub mod laws;
pub mod mirror;
pub mod naming;
pub mod row;
mod selectors;
pub mod slots;
mod value;
