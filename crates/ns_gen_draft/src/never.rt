//! What no program comes to that gets code.

use ns_base::no_memory::NoMemory;

/// The answer where a number doesn't fit its field, a cascade has no receiver, a unit has no places, a
/// name isn't in the table, or a primary has parts where none has. In a whole program without static
/// faults none of it comes: `IsRight` of ns_resolved says so of what its bodies use, and more blocks
/// than 32 bits count find no memory. The walks over trees don't carry that along, so they end here
/// as for want of memory.
pub fn cannot_come() -> NoMemory {
    NoMemory
}
