//! Writes the listing of code with the members of its classes and the places of its sends.
//! `specs/Members.antt` says it line by line.
//! Stands between ns_image_list and run.
#![tactic(auto, using(crate::proofs::Puts::after_after))]

pub mod bodies;
pub mod classes;
pub mod firsts;
pub mod list;
pub mod named;
