//! What all rooms speak of: texts, names with numbers, places, limits, statuses, and files and streams as traits.
//! `specs/Shelf.antt` says what loading and storing a file come to, and `specs/Sink.antt` what a stream has taken.
//! Stands on no other room; all stand on it.
#![tactic(auto)]

pub mod items;
pub mod key;
pub mod limits;
pub mod mem_shelf;
pub mod mem_sink;
pub mod no_memory;
pub mod place;
pub mod quoted;
pub mod selector;
pub mod shelf;
pub mod sink;
pub mod spelled;
pub mod spelling;
pub mod status;
pub mod stored;
pub mod sure_shelf;
pub mod sure_sink;
pub mod text;
pub mod text_set;
