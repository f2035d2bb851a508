//! The kernel's rows of values, booleans, texts, symbols, arrays and messages.
//! `specs/Datum.antt` says what each row comes to: its answer and its one change of the world, or its first fault.
//! Stands between world and moves.
#![tactic(auto)]

pub mod arguments;
pub mod arrays;
mod booleans;
pub mod datum;
pub mod decimal;
pub mod giving;
pub mod laws;
pub mod making;
mod messages;
mod objects;
mod symbols;
pub mod texts;
