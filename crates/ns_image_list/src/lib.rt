//! Writes the listing of code.
//! `specs/Listing.antt` says it line by line.
//! Stands between code and run.
#![tactic(auto, using(crate::proofs::Puts::after_after))]

pub mod instruction;
pub mod list;
pub mod output;
pub mod source;
