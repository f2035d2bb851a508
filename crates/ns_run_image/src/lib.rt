//! What a command does with an image, to the report.
//! `specs/Image.antt` says what is written and the status, over the bytes of the image (`of_image`), and of its run (`of_exec`).
//! Stands between audit, run_code, run_snap, image, ns_run_input and ns_run.
#![tactic(auto)]

pub mod exec;
pub mod image;
mod resume;
pub mod task;
