//! Static faults.

use ns_base::place::Place;

/// What is wrong. Of two at one place, the one that stands first here is answered.
#[derive(Clone, Copy)]
pub enum StaticCause {
    DuplicateMember,
    DuplicateLocal,
    FixedLocal,
    BadReturn,
    BareReceiver,
    NoSuchOuter,
    BadCascade,
    PlainTooLarge,
    TooMany(Many),
    TopSuper,
    DuplicateTop,
}

/// Of what there are too many. Of two at one place, the one that stands first here is answered.
#[derive(Clone, Copy)]
pub enum Many {
    Parameters,
    Locals,
    Elements,
    Members,
    Classes,
}

/// A cause at its place.
#[derive(Clone, Copy)]
pub struct Placed {
    pub place: Place,
    pub cause: StaticCause,
}

/// Whether a message is sent to an expression.
#[derive(Clone, Copy)]
pub enum Role {
    Receiver,
    Value,
}
