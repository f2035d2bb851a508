//! What commands do with a program and with code: the admitted code of either, its run, the build, and the listing.
//! `specs/Run.antt` says what a program's run tells, and `specs/Exec.antt` what comes of the bytes of an image.
//! Stands between link, image, machine and ns_run.
#![tactic(auto)]

pub mod build;
pub mod code;
pub mod exec;
pub mod image_laws;
pub mod laws;
pub mod listing;
pub mod run;
