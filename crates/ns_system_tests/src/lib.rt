//! Tests of the adapters of the system, over one in memory of which single calls fail.
//! They try what is read, written and stored, what is tried again, and what is told of a fault.
//! Stands on ns_system.
#![tactic(auto)]

#[cfg(test)]
mod adapter_tests;
#[cfg(test)]
mod broken_system;
