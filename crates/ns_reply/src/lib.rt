//! What a call on a program tells of it, and how that is given into the room of a host.
//! `specs/Reply.antt` says what is told, and `specs/Room.antt` what stands in the room.
//! Stands between ns_handed, ns_run_code, ns_snapshot_write and ns_opened.
#![tactic(auto)]

pub mod give;
pub mod reply;
pub mod room;
