//! Writes the code of one body: of a method, a block, an initialiser or a clause.
//! `specs/Coding.antt` says what a further body makes of what was generated (`with_one`).
//! Stands between ns_gen_exprs and ns_gen.
#![tactic(auto)]

pub mod clauses;
pub mod finish;
pub mod head;
pub mod initialisers;
pub mod output;
pub mod steps;
pub mod values;
