//! What a machine keeps of a run beside its frames.

use ns_facets::board::Board;
use ns_find::memo::Memo;
use ns_world::world::World;

/// The world, the board, the lookups that are kept, and how many method activations have begun.
#[derive(Drop)]
pub struct Run {
    pub world: World,
    pub board: Board,
    pub memo: Memo,
    pub begun: u64,
}
