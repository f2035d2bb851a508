//! Freezing a run of the machine: its state as plain data.
//! `crates/ns_frozen/specs/Freezing.antt` says what a state freezes to; `specs/Walk.antt` and `specs/Down.antt` go over a heap and over
//! frames as the machine keeps them.
//! Stands between ns_frozen, ns_machine_core and ns_machine.
#![tactic(auto)]

pub mod cells;
pub mod frame;
pub mod frames;
pub mod states;
pub mod waiting;
