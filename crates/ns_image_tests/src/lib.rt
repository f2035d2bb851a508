//! Tests of images and of the verifier, by tables.
//! They try an image of each version with its listing, what is refused of it, and small programs with the first fault
//! of each.
//! Stands on image and verify.
#![tactic(auto)]

#[cfg(test)]
mod body_tests;
#[cfg(test)]
mod class_tests;
#[cfg(test)]
mod image_tests;
#[cfg(test)]
mod sample;
