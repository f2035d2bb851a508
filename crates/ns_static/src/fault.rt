//! Why a program is refused.

use ns_base::place::Place;
use ns_static_rules::fault::StaticCause;

/// What the check of a program refuses it for: a fault at its place, or want of memory.
#[derive(Clone, Copy)]
pub enum StaticFault {
    At { cause: StaticCause, place: Place },
    Memory,
}
