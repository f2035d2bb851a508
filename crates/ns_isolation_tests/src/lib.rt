//! Tests of two machines side by side, of which one holds more that nothing reaches.
//! They try that a send comes to the same in both, for twelve modules and up to each limit.
//! Stands on the machine and the session's files.
#![tactic(auto)]

#[cfg(test)]
mod isolation_tests;
#[cfg(test)]
mod sources;
