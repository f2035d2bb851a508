//! The code of a program in which every name has its meaning, as a definition with its laws.
//! `specs/Code.antt` says which code that is (`code_of`).
//! Stands between resolved and verify, whose causes its laws exclude, and ns_gen and link.
#![tactic(auto)]

pub mod laws;
pub mod size;
