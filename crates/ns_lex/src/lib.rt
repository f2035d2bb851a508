//! The tokens of a source, cut from its bytes.
//! `specs/Lexes.antt` says which tokens cut a source, and where a source stops to be cut.
//! Stands between tree and load.
#![tactic(auto)]

pub mod bytes;
pub mod comment;
pub mod fault;
pub mod laws;
pub mod next;
pub mod number;
pub mod operator;
pub mod piece;
pub mod quoted;
pub mod scan;
pub mod single;
pub mod symbol;
pub mod word;
