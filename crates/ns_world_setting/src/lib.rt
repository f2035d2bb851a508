//! One lawful world of a small program, and ways to ask what it holds: the ground of the tests of lookup, class making
//! and the kernel's rows.
//! `specs/Program.antt` is the program; every call keeps the world ready for the next (`specs/Ready.antt`).
//! Stands between moves and ns_world_tests, ns_kernel_tests.
#![tactic(auto)]

pub mod asking;
pub mod cells;
pub mod looking;
pub mod program;
pub mod setting;
