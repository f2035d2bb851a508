//! Tests of the kernel's rows and methods, by tables, in one lawful world.
//! They try these by what was worked out apart from the definitions.
//! Stands on ns_world_setting.
#![tactic(auto)]

#[cfg(test)]
mod block_tests;
#[cfg(test)]
mod data_tests;
#[cfg(test)]
mod facet_tests;
#[cfg(test)]
mod integer_tests;
#[cfg(test)]
mod mirror_tests;
