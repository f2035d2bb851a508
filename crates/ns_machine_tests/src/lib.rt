//! Tests of the machine's memory and of its plan.
//! They try that ordinary room is found for frames and values, and what a small image is prepared as.
//! Stands on image, verify, ns_machine_frames and ns_machine_plan.
#![tactic(auto)]

#[cfg(test)]
mod plan_tests;
mod stack_tests;
