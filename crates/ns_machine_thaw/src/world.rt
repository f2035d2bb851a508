//! The world of a run, put back.

ghost use Rattle.std.specs.Prelude.{◌≡◌, ◌+◌, ◌++◌, ◌≤◌, length};
ghost use Rattle.ns_moves.specs.Room.{HasCellRoom};
ghost use Rattle.ns_frozen.specs.Thawing.{world_thawed};
ghost use Rattle.ns_world.specs.Lawful.{IsLawful};
ghost use Rattle.ns_world.specs.World.{SameRoom};

use crate::cells::put_cells;
use ns_code::program::CodeProgram;
use ns_frozen::frozen::Frozen;
use ns_world::world::World;

/// Puts the cells, the output and the counters back in place of those that there were.
#[tactic(auto, using(crate::proofs::Worlds::cells_fit, crate::proofs::Worlds::output_fits, crate::proofs::Worlds::steps_fit, crate::proofs::Worlds::depth_fits))]
pub fn put_world(world: &mut World, code: &CodeProgram, frozen: &Frozen)
    requires cells { HasCellRoom world.old }
    requires out { world.old.world.limits.out ≤ world.old.out_room }
    requires limits { frozen.now.limits ≡ world.old.world.limits }
    requires lawful { IsLawful (world_thawed code.now frozen.now) code.now }
    ensures world { world.new.world ≡ world_thawed code.now frozen.now }
    ensures room { SameRoom world.old world.new }
{
    world.clear();
    put_cells(world, code, &frozen.cells);
    put_output(world, frozen.output.bytes());
    world.resume(frozen.used.steps, frozen.used.depth);
}

/// Puts output behind that which there is.
#[tactic(auto, using(crate::proofs::Worlds::printed_fits))]
fn put_output(world: &mut World, bytes: &[u8])
    requires room { world.old.world.limits.out ≤ world.old.out_room }
    requires fits { length world.old.world.output + length bytes.now ≤ world.old.world.limits.out }
    ensures world { world.new.world ≡ record world.old.world { output = world.old.world.output ++ bytes.now } }
    ensures room { SameRoom world.old world.new }
{
    let _charged = world.print(bytes);
}
