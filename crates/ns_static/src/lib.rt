//! The check of a program: it has no static fault, or the least one is told.
//! `specs/Check.antt` says which that is: the least of all faults of the whole tree.
//! Stands between ns_static_rules and link, session and run.
#![tactic(auto)]

pub mod check;
pub mod classes;
pub mod counting;
pub mod declarations;
pub mod fault;
pub mod heads;
pub mod units;
