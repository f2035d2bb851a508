//! Tests of cells, of lookup and of the making of classes, by tables, in one lawful world.
//! They try these by what was worked out apart from the definitions.
//! Stands on ns_world_setting.
#![tactic(auto)]

#[cfg(test)]
mod lookup_tests;
#[cfg(test)]
mod making_tests;
#[cfg(test)]
mod world_tests;
