//! Where such a method stands, and what it does next.

use ns_world::ending::Kind;
use ns_world::value::Value;

/// Where a method stands between two of its actions. The arguments that are to be blocks are
/// blocks, and the end of `to:do:` is an Integer: that is checked before the method begins.
#[derive(Clone, Copy)]
pub struct KState {
    /// The receiver of the message.
    pub receiver: Value,
    /// Its first argument.
    pub first: Value,
    /// Its second argument; nil where it has one.
    pub second: Value,
    /// In `do:` how many elements the array has, read once as the method begins; else 0.
    pub size: i64,
    /// 0 as the method begins, and then what the last evaluation set: in `to:do:`, `timesRepeat:`
    /// and `do:` how many turns have begun; in a while loop 1 after the receiver's evaluation
    /// began, and 0 after the argument's; in the others 1.
    pub count: i64,
    /// What the block answered that was evaluated last, from its return to the next action.
    pub last: Option<Value>,
}

/// What a method does next.
#[derive(Clone, Copy, PartialEq, Eq)]
pub enum KAction {
    /// Evaluates a block, with an argument if there is one. Where a turn of a loop begins, its
    /// step is charged first. The state's count is then `count`.
    Evaluate {
        block: Value,
        arg: Option<Value>,
        turn: bool,
        count: i64,
    },
    /// Begins a turn: its step is charged, and the block is evaluated with what the array that is
    /// the receiver then has at this place, counted from 0.
    EvaluateItem {
        block: Value,
        item: i64,
        count: i64,
    },
    /// Ends with this value.
    Answer(Value),
    /// Ends with this error.
    Fail(Kind),
}
