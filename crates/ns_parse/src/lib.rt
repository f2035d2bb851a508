//! Reads the tree of a file from its tokens.
//! `specs/Answers.antt` says, by the grammar alone, what is answered: the tree that the tokens spell, or where they go
//! wrong.
//! Stands between ns_parse_exprs and load.
#![tactic(auto)]

pub mod classes;
pub mod laws;
pub mod parse;
