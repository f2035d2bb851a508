//! Where an actor stands between its letters, as it is kept.

use ns_actors::turn::Stop;
use ns_world::value::Value;

/// An outbox that is held: the behaviour of its actor, and for which number of so many actors it was read. Its letters stand in the
/// world of the run.
#[derive(Clone, Copy)]
pub struct Held {
    pub behaviour: Value,
    pub from: u32,
    pub count: u32,
}

/// Where an actor stands.
#[derive(Clone, Copy)]
pub enum Standing {
    /// It opens.
    Opening,
    /// It has its behaviour, and is between two letters.
    Between(Value),
    /// It is in the send of a letter to its behaviour.
    Sending(Value),
    /// It holds an outbox that isn't posted yet.
    Holding(Held),
    /// It has stopped.
    Stopped(Stop),
}
