//! The sends of running code, and what waits to be done.
//! `specs/Sending.antt` says what a send asks for, and that control goes where it led.
//! Stands between ns_machine_core, ns_machine_plan and ns_machine_quick.
#![tactic(auto)]

pub mod around;
mod arriving;
pub mod blocks;
mod ending;
pub mod entering;
mod evaluating;
mod going;
pub mod led;
pub mod opening;
pub mod placing;
pub mod resending;
mod sending;
pub mod sends;
pub mod sent;
pub mod waiting;
