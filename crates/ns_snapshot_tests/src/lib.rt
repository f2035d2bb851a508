//! Tests of snapshots, by tables.
//! They try a snapshot that is read and written again, and changes of it with the first fault of each.
//! Stands on the writer and the reader of snapshots.
#![tactic(auto)]

#[cfg(test)]
mod read_tests;
#[cfg(test)]
mod sample;
