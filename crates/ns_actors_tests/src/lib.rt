//! Tests of actors through their calls.
//! They try what is refused, and 300 random schedules of letters and turns, after any of which each actor stands where it stands alone
//! with its letters.
//! Stands on ns_actors_setting.
#![tactic(auto)]

#[cfg(test)]
mod call_tests;
#[cfg(test)]
mod letter_tests;
#[cfg(test)]
mod troupe;
