//! What was sent.

use ns_machine_frames::frame::KeptSite;

/// The site of a send or of an evaluation, where the values of its caller end, and where its arguments begin, which end
/// at the top.
#[derive(Clone, Copy)]
pub struct Sent {
    pub site: KeptSite,
    pub floor: u32,
    pub first: u32,
}
