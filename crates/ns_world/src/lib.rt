//! The world of a run: cells, counters, limits and output; and its kernel's rows, in one table.
//! `specs/World.antt` says what each change makes of a world, and where a charge would pass its limit;
//! `specs/KernelTable.antt` is the table. Stands between code and classes, find, kernel and moves.
#![tactic(auto)]

pub mod cell;
pub mod ending;
pub mod head;
mod heap;
pub mod kernel;
pub mod kernel_class;
pub mod kernel_laws;
pub mod kernel_parts;
pub mod kernel_row;
pub mod kernel_table;
pub mod later;
pub mod lawful;
pub mod laws;
mod lay;
mod pack;
mod seek;
pub mod value;
mod values;
mod word;
pub mod world;
