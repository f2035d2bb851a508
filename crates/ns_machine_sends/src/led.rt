//! Where a send that waited leads.

use ns_machine_core::state::Next;
use ns_world::value::Value;

/// On from there, or to a value, which what stands below is yet to take.
#[derive(Clone, Copy)]
pub enum Led {
    Goes(Next),
    Gives(Value),
}
