//! The bodies of a program in the order of their numbers, each as what is seen from it.
//! `crates/ns_scope/specs/Bodies.antt` says which they are.
//! Stands on scope; tests alone call it, since static and gen number the bodies along their own walks.
#![tactic(auto)]

pub mod blocks;
pub mod bodies;
pub mod scopes;
