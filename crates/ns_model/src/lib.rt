//! What a source means: the run of a program by its trees, in big steps.
//! `specs/Whole.antt` says the meaning of a run, over that of expressions in `specs/Eval.antt`.
//! Stands between resolved, moves and link.
#![tactic(auto)]

pub mod laws;
