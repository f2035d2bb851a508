//! Where moves have led, with the steps that are left.

use ns_machine_frames::registers::Registers;

/// On with the topmost frame, with so many steps that are surely left; on with what waits; or nowhere, since the run has ended.
#[derive(Clone, Copy)]
pub enum Way {
    On { to: Registers, sure: u64 },
    Waits(Registers),
    Ended,
}
