//! What is found once of sound code and of frozen cells, to be asked often: the numbers of cells and the chains of classes; selectors,
//! where bodies can stand, which have one shape, and which classes are nested where.
//! `specs/Chain.antt` and `specs/Bodies.antt` say what these tables tell.
//! Stands between ns_frozen and ns_frozen_seen.
#![tactic(auto)]

pub mod above;
pub mod bodies;
pub mod chain;
pub mod kinds;
pub mod nested;
pub mod numbers;
pub mod selectors;
pub mod shapes;
pub mod stand;
