//! Replays: a run is gone through forward and back, to any of its steps.
//! `specs/At.antt` says where a run stands at a step (`at`), and `specs/Replay.antt` what a replay is.
//! Stands between ns_machine, ns_session and a host.
#![tactic(auto)]

pub mod kept;
pub mod laws;
mod places;
pub mod replay;
mod standing;
