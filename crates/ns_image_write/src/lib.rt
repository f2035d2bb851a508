//! Writes the image of code.
//! `crates/ns_image/specs/Bytes.antt` says which bytes these are (`bytes_of`).
//! Stands between ns_image and run.
#![tactic(auto)]

pub mod write;
