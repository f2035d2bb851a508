//! The audit of a module: whether its code ever sends certain selectors, and if so, where first.
//! `specs/Audit.antt` says what is answered, `specs/Stated.antt` what a yes promises of every run, and `specs/Image.antt`
//! what is told of the bytes of an image.
//! Stands on image, verify and the machine's moves; a host calls it.
#![tactic(auto)]

pub mod answer;
pub mod audit;
pub mod image;
pub mod laws;
pub mod module;
