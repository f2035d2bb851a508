//! Code for the machine: instructions, bodies, class records, and the program that holds them.
//! `specs/Table.antt` says what each instruction takes and leaves, and where it goes on.
//! Stands between base and gen, image, verify, world and the machine.
#![tactic(auto)]

pub mod body;
pub mod class;
pub mod classes;
pub mod copies;
pub mod instruction;
pub mod instructions;
pub mod kinds;
pub mod listed;
pub mod local_names;
pub mod names;
mod naming;
pub mod own;
pub mod program;
pub mod selector;
pub mod selectors;
pub mod table;
