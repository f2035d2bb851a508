//! The plain instructions of the machine, over a run's world, frames and values.
//! `specs/Doing.antt` says what each does: the state that it shows is the one of ns_machine_moves.
//! Stands on ns_moves and ns_machine_frames; ns_machine_turns picks its functions.
#![tactic(auto)]

pub mod arriving;
pub mod blocks;
pub mod giving;
pub mod jumping;
pub mod laws;
pub mod leaping;
pub mod led;
pub mod locals;
pub mod making;
pub mod on_top;
pub mod own;
pub mod places;
pub mod pushing;
pub mod settling;
pub mod state;
pub mod storing;
pub mod taking;
