//! The system outside: real files as a shelf, real streams as sinks, and the words of the command line.
//! `specs/Drive.antt`, `specs/Store.antt`, `specs/Stream.antt` and `specs/Line.antt` say what they do over a system that tells
//! its files, its streams and its words; `host` has the one call of the real system that stands for each question.
//! Stands between base and nspk.
#![tactic(auto)]

pub mod arguments;
mod draft;
pub mod drive;
pub mod fault;
pub mod files;
pub mod host;
pub mod outlet;
pub mod store;
pub mod stream;
pub mod telling;
