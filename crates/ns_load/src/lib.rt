//! Loads the files of a program: from names to trees and the places of their tokens.
//! `specs/Loaded.antt` says what texts are loaded as: the units in their order, or the fault of the first text that is
//! refused.
//! Stands on lex, parse, lib and scope; run and session call it.
#![tactic(auto)]

pub mod fault;
pub mod file;
pub mod laws;
pub mod load;
pub mod names;
mod parts;
pub mod place;
pub mod read;
