//! Laws of reading: a source is read as its tokens and the grammar say, and a canonical source as its tree.
//! `specs/Reads.antt` says what a source is read as (`ReadsAs`), and names neither `scan` nor `parse`.
//! Stands on lex, parse, print and load; no code calls it.
#![tactic(auto)]

pub mod canonical;
pub mod laws;
