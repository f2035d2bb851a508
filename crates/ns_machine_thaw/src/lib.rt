//! Thawing a run of the machine: plain data that is valid, put back as its state.
//! `crates/ns_frozen/specs/Thawing.antt` says what state plain data stands for; `specs/Thawed.antt` what a machine shows afterwards.
//! Stands between ns_frozen, ns_machine_core and ns_machine.
#![tactic(auto)]

pub mod arguments;
pub mod cells;
pub mod entering;
pub mod frames;
pub mod kept;
pub mod places;
pub mod standing;
pub mod thaw;
pub mod thawed;
pub mod values;
pub mod waiting;
pub mod world;
