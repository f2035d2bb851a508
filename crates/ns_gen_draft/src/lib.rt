//! What the generator has written so far: the lines of a body, and the tables of names and literal texts.
//! `specs/Drafts.antt` says what a further line, name or text makes of it.
//! Stands between ns_gen_code and ns_gen_exprs.
#![tactic(auto)]

pub mod around;
pub mod counting;
pub mod draft;
pub mod here;
pub mod keys;
pub mod names;
pub mod never;
pub mod writer;
