//! New arrays, to be filled.

ghost use Rattle.std.specs.Prelude.{◌≤◌};
ghost use Rattle.ns_mirror.specs.Arrays.{MakesArray};

use ns_world::cell::NewCell;
use ns_world::ending::{Fault, LimitKind};
use ns_world::world::World;

/// A new array of so many nils; the limit on cells exactly where it doesn't fit.
pub fn new_array(world: &mut World, size: u32) -> Result<u32, Fault>
    requires { world.old.world.limits.cells ≤ world.old.cell_room }
    ensures { MakesArray world.old size result world.new }
{
    match world.make(NewCell::Array { size }) {
        Ok(number) => Ok(number),
        Err(_) => Err(Fault::Limit(LimitKind::Cells)),
    }
}
