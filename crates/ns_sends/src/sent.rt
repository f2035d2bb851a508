//! Sends at their places.

use ns_base::place::Place;
use ns_base::selector::Sel;

/// A selector, and the place at which it is sent.
#[derive(Clone, Copy)]
pub struct SentAt {
    pub place: Place,
    pub sel: Sel,
}
