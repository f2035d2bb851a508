//! What waits to be done next, as plain data.

use crate::plain::PlainValue;
use ns_base::items::Items;
use ns_base::selector::Sel;
use ns_moves::site::Site;
use ns_world::value::Value;

/// A send that opens the run or that a host made; a send with the elements of the array of that number; or the
/// evaluation of a block.
#[derive(Drop)]
pub enum Pending {
    Send {
        receiver: Value,
        sel: Sel,
        args: Items<PlainValue>,
        site: Site,
    },
    Perform {
        receiver: Value,
        sel: Sel,
        args: u32,
        site: Site,
    },
    Evaluate {
        block: Value,
        args: Items<PlainValue>,
        site: Site,
    },
}
