//! The layout of a source: its tokens and comments as they stand, in lines with leads.
//! `specs/Format.antt` says how a source is laid out.
//! Stands between lex and run.
#![tactic(auto)]

pub mod format;
pub mod laws;
pub mod leads;
pub mod piece;
pub mod pieces;
