//! What a command means, and the top call.
//! `specs/Meaning.antt` says, of all words and files, what is stored, what is written and the status (`meaning`).
//! Stands on ns_run_words, ns_run_files, ns_run_image, session and help; edge calls it.
#![tactic(auto)]

mod line;
mod session;
pub mod top;
