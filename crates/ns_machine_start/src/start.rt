//! The cells of a start, in their order.

ghost use Rattle.std.specs.Prelude.{◌≡◌, ◌≤◌, [], length, IfOk, OnErr};
ghost use Rattle.std.specs.Vec.{vec_capacity};
ghost use Rattle.ns_world.specs.declared.value.Value.TheVariants.{Nil};
ghost use Rattle.ns_world.specs.World.{empty_world};
ghost use Rattle.ns_moves.specs.Control.{Progress, in_world};
ghost use Rattle.ns_moves.specs.Start.{nothing_done, start_cells, all_made, start_made};
ghost use Rattle.ns_moves.specs.Room.{HasCellRoom, SameRest};
ghost use Rattle.ns_machine_start.specs.Making.{start_shown};

use crate::cells::make_standing;
use crate::texts::make_texts;
use ns_base::no_memory::NoMemory;
use ns_base::text::Text;
use ns_code::program::CodeProgram;
use ns_facets::row::Grants;
use ns_world::cell::CellLimit;
use ns_world::value::Value;
use ns_world::world::World;
use std::alloc::Global;

/// Makes the cells of a start in an empty world: the facets, the top-level classes, the texts of the arguments, and
/// their array, whose number is the answer. Where one of them doesn't fit those before it stand. Only a list of what
/// refers to the texts takes memory.
pub fn make_start(
    alloc: Global,
    world: &mut World,
    code: &CodeProgram,
    grants: Grants,
    arguments: &[Text],
) -> Result<Result<u32, CellLimit>, NoMemory>
    requires empty { world.old.world ≡ empty_world world.old.world.limits }
    requires room { HasCellRoom world.old }
    requires classes { length code.now.classes ≤ 4294967295 }
    ensures made { IfOk result (λ made. start_shown made (in_world (nothing_done world.old.world.limits) world.new.world)
        ≡ start_made code.now grants arguments.now world.old.world.limits) }
    ensures rest { SameRest world.old world.new }
    ensures err { OnErr result (world.new ≡ world.old) }
{
    let mut texts = Vec::with_capacity(alloc, arguments.len())?;
    Ok(make_all(world, code, grants, arguments, &mut texts))
}

/// Makes the cells in their order, with a list of what refers to the texts, for which there is room.
fn make_all(
    world: &mut World,
    code: &CodeProgram,
    grants: Grants,
    arguments: &[Text],
    texts: &mut Vec<Value>,
) -> Result<u32, CellLimit>
    requires empty { world.old.world.cells ≡ [] }
    requires room { HasCellRoom world.old }
    requires classes { length code.now.classes ≤ 4294967295 }
    requires none { texts.old.items ≡ [] }
    requires enough { length arguments.now ≤ vec_capacity texts.old }
    ensures made { (progress : Progress) → all_made (start_cells code.now grants arguments.now) Nil (in_world progress world.old.world)
        ≡ start_shown result (in_world progress world.new.world) }
    ensures rest { SameRest world.old world.new }
{
    make_standing(world, code, grants)?;
    make_texts(world, arguments, texts)?;
    world.make_array(texts.as_slice())
}
