//! What the rows of mirrors answer.

use ns_base::selector::Sel;
use ns_world::value::Value;

/// An answer, or a plain send that is to be made: its arguments are the elements of the array of
/// that number.
#[derive(Clone, Copy, PartialEq, Eq)]
pub enum Mirrored {
    Answer(Value),
    Perform {
        receiver: Value,
        sel: Sel,
        args: u32,
    },
}
