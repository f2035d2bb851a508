//! Reads from tokens what holds no expression: marks, names, leaves and patterns.
//! `specs/Read.antt` says what a reader is: it gives a value and the tokens that are left, or the token at which it
//! stops.
//! Stands between tree and ns_parse_exprs.
#![tactic(auto)]

pub mod fault;
pub mod leaf;
pub mod mark;
pub mod name;
pub mod pattern;
pub mod tokens;
