//! Actors of sources that a test names, and an application alone beside one of them: the ground of the tests of actors.
//! No definition says more of them: they are let go here, so that the tests own none.
//! Stands between session, actors and ns_actors_tests.
#![tactic(auto)]

pub mod alone;
pub mod started;
