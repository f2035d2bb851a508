//! What a command does with a program, but for its run.

use ns_base::limits::Limits;

/// What is done with a program.
#[derive(Drop)]
pub enum Task<'a> {
    /// It is checked for static faults: all of them are told, or the first; and where there are none, the sends that nothing
    /// answers, or none.
    Check {
        all: bool,
        sends: bool,
    },
    /// The canonical source of its first file is written.
    Show,
    /// Its image is stored under this name.
    Build {
        image: &'a str,
    },
    /// So many of its actors have rounds, each within these limits, until all rest; the first gets a letter of this selector and
    /// number.
    Act {
        limits: Limits,
        count: u32,
        sel: &'a [u8],
        number: i64,
    },
    /// Its tests are run within these limits, each alone: all in the order of the text, or in the
    /// reverse one, or the one of this name.
    Test {
        limits: Limits,
        reversed: bool,
        only: Option<&'a [u8]>,
    },
    /// Its run within these limits is paused after so many steps, and the snapshot of that stored under
    /// this name.
    Snap {
        name: &'a str,
        limits: Limits,
        at: u64,
    },
    /// Its run within these limits is gone through by these moves.
    Replay {
        limits: Limits,
        moves: &'a [String],
    },
}
