//! Tests of sessions through their calls.
//! They try what is refused, and 500 random schedules of applications, of which none changes what one without the board does.
//! Stands on session.
#![tactic(auto)]

#[cfg(test)]
mod application;
#[cfg(test)]
mod call_tests;
#[cfg(test)]
mod schedule_tests;
