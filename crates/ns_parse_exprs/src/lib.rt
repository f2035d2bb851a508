//! Reads expressions, slots, statements and blocks from tokens, by one function for each rule of the grammar.
//! `specs/Expressions.antt` says what each of them reads.
//! Stands between ns_parse_tokens and ns_parse.
#![tactic(auto)]

pub mod expressions;
pub mod fronts;
