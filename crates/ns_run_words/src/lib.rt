//! The words of a command line: the forms of the commands, and how the words are read.
//! `specs/Words.antt` says what words are read as: a line, or the first bad word.
//! Stands between base, ns_help and ns_run.
#![tactic(auto)]

pub mod application;
pub mod form;
pub mod laws;
pub mod letter;
pub mod moves;
pub mod number;
pub mod options;
pub mod own;
mod pause;
pub mod words;
