//! The generator: the code of a whole program, body by body, each with the blocks in it.
//! `crates/ns_gen_code/specs/Code.antt` says which code that is (`code_of`).
//! Stands between ns_gen_bodies, ns_gen_records and link.
#![tactic(auto)]

pub mod bodies;
pub mod fault;
pub mod generate;
pub mod inner;
pub mod laws;
pub mod units;
