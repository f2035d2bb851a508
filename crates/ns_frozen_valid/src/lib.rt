//! The first part of any frozen data that can't be: a cell, a frame, or what stands beside these.
//! `fault_of` in ns_frozen says which that is.
//! Stands between ns_frozen_fitting and the machine that takes a state back where it has no fault.
#![tactic(auto)]

mod among;
mod cells;
pub mod fault;
mod first;
mod frames;
mod kernel;
mod rest;
