//! The canonical source of a tree.
//! `specs/Printed.antt` says how each token is written, and what stands behind it.
//! Stands between tree and run.
#![tactic(auto)]

mod declarations;
mod expressions;
pub mod print;
mod tokens;
