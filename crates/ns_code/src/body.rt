//! What the code keeps of a body, which is a method, a block, an initialiser or a clause's head.

use crate::instructions::Instructions;
use crate::local_names::LocalNames;
use ns_base::items::Items;
use ns_base::place::Place;

/// A body. Its kind is 0 for a method, 1 for a block, 2 for an initialiser and 3 for a clause;
/// its side is 0 for instances and 1 for the class. `locals` counts its parameters too, `height`
/// is the greatest number of operands, and `places` has the place of each send by the number of
/// its instruction, in order.
#[derive(Drop)]
pub struct BodyCode {
    pub kind: u8,
    pub side: u8,
    pub class: u32,
    pub parent: Option<u32>,
    pub params: u8,
    pub locals: u8,
    pub environment: bool,
    pub height: u16,
    pub instrs: Instructions,
    pub places: Items<(u32, Place)>,
    pub local_names: LocalNames,
}
