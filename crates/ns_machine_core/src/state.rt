//! What a machine keeps of a run beside its registers, and where an instruction leads.

use crate::places::Places;
use ns_machine_frames::arguments::Arguments;
use ns_machine_frames::frame::Pending;
use ns_machine_frames::registers::Registers;
use ns_machine_frames::stack::Stack;
use ns_moves::run::Run;
use ns_world::ending::Ending;

/// How far a run has come: nothing was begun; it answers the first opening send, after which the second is sent with the
/// array of that number; it answers the second; or it answers a send of the host.
#[derive(Clone, Copy)]
pub enum Phase {
    Start,
    First { arguments: u32 },
    Second,
    Hosted,
}

/// What has been done, the frames with their values, the places that sites name by their numbers, how far the run has
/// come, what waits in it or waited last, the arguments that are kept for that, where they are no operands, and, once it has
/// ended, how.
#[derive(Drop)]
pub struct Core {
    pub run: Run,
    pub stack: Stack,
    pub places: Places,
    pub phase: Phase,
    pub waiting: Pending,
    pub arguments: Arguments,
    pub ending: Ending,
}

/// Where a run goes next: on with its topmost frame, on with what waits in it, or nowhere, since it has ended. Every move
/// gives it back, so it is small: what waits and how the run ended stand in the core.
#[derive(Clone, Copy)]
pub enum Next {
    On(Registers),
    Waits(Registers),
    Ended,
}
