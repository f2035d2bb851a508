//! Where a run stands that was put back.

use ns_machine_core::state::Next;

/// Nothing was begun, and the array of the arguments has that number; or the run goes on there, or has ended.
#[derive(Clone, Copy)]
pub enum Thawed {
    Unbegun { arguments: u32 },
    Begun(Next),
}
