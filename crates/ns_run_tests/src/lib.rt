//! Tests of whole commands, by tables, over files and streams in memory.
//! They try what commands write to both streams, what they store, and their statuses.
//! Stands on run.
#![tactic(auto)]

#[cfg(test)]
mod actor_tests;
#[cfg(test)]
mod command;
#[cfg(test)]
mod command_tests;
#[cfg(test)]
mod image_tests;
#[cfg(test)]
mod limit_tests;
#[cfg(test)]
mod replay_tests;
#[cfg(test)]
mod run_tests;
#[cfg(test)]
mod session_tests;
#[cfg(test)]
mod snapshot_tests;
#[cfg(test)]
mod stream_tests;
#[cfg(test)]
mod text_tests;
#[cfg(test)]
mod texts;
#[cfg(test)]
mod word_tests;
