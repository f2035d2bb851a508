//! The records of classes: what each class declares, by the numbers of classes and bodies.
//! `specs/Declaring.antt` says what a class declares, from where it stands (`declaration_in`).
//! Stands between ns_gen_draft and ns_gen.
#![tactic(auto)]

pub mod counted;
pub mod declaration;
pub mod declared;
pub mod members;
pub mod names;
pub mod records;
