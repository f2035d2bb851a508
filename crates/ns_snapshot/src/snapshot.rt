//! What a snapshot holds.

use ns_frozen::frozen::Frozen;
use ns_verify::verify::Verified;

/// Sound code, and the plain data of a state of a run of it.
#[derive(Drop)]
pub struct Snapshot {
    pub code: Verified,
    pub frozen: Frozen,
}
