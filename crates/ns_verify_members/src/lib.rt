//! The members of declarations of code: what is asked of their names, their selectors, and which are private.
//! `specs/Numbers.antt` says the selectors of members as numbers, by which a selector that comes twice is found.
//! Stands between code and ns_verify; the plan of the machine uses it too.
#![tactic(auto)]

pub mod members;
pub mod names;
pub mod numbers;
pub mod privates;
pub mod texts;
