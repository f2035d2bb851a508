//! Sources that the program has of its own: the library Collections, and the sample of N.
//! `specs/Collections.antt` says the library byte for byte, and `specs/Sample.antt` the sample line by line.
//! Stands between base and load.
#![tactic(auto)]

pub mod collections;
pub mod sample;
