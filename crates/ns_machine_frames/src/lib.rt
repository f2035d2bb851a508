//! The frames and values of the machine in one row, with its registers.
//! `specs/Standing.antt` says how frames stand there, each with its locals and its operands.
//! Stands between ns_moves and ns_machine_core.
#![tactic(auto)]

pub mod arguments;
pub mod calls;
mod ending;
mod entering;
pub mod frame;
mod frames;
pub mod laws;
mod reading;
pub mod registers;
pub mod stack;
mod values;
