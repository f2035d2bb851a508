//! Where frames of the machine end: ends of bodies, returns to a home, superclass parts, and methods of the kernel.
//! `specs/Ending.antt` says what the end of a body asks for, and what it leaves.
//! Stands between ns_machine_core and ns_machine_turns.
#![tactic(auto)]

pub mod acting;
pub mod answering;
pub mod ending;
pub mod handing;
pub mod homes;
pub mod laws;
pub mod parts;
pub mod unwinding;
