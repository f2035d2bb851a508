//! The kernel's rows of Integer.
//! `specs/Integer.antt` says what each answers, or its first fault.
//! Stands between world and moves.
#![tactic(auto)]

mod division;
pub mod integer;
pub mod laws;
