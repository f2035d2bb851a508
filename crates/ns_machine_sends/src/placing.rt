//! Arguments that are kept: the elements of an array, and their places beside a body.

ghost use Rattle.std.specs.Prelude.{◌≡◌, ◌≤◌, ◌+◌, length};
ghost use Rattle.ns_world.specs.declared.value.Value.TheVariants.{Ref};
ghost use Rattle.ns_kdata.specs.Arguments.{CellIsThere, items_of};
ghost use Rattle.ns_machine_sends.specs.Going.{IsLeft, ArePlaced};
ghost use Rattle.ns_machine_sends.specs.Kept.{keeping};

use crate::sent::Sent;
use ns_code::program::CodeProgram;
use ns_kdata::arguments::{array_item, array_size};
use ns_machine_core::state::Core;
use ns_machine_frames::arguments::Arguments;
use ns_machine_frames::registers::Registers;
use ns_world::value::Value;
use ns_world::world::World;

/// Takes the elements of an array as arguments.
fn take_items(world: &World, arguments: &mut Arguments, array: u32)
    requires there { CellIsThere world.now.world.cells (Ref array) }
    requires room { length (items_of world.now.world.cells (Ref array)) ≤ arguments.old.room }
    ensures { arguments.new ≡ record arguments.old { items = items_of world.now.world.cells (Ref array) } }
{
    let count = array_size(world, Value::Ref(array));
    arguments.clear();
    'elements: for place in 0..count {
        arguments.push(array_item(world, Value::Ref(array), place));
    }
}

/// Keeps the elements of an array as the arguments of what waits.
pub fn keep_items(core: &mut Core, array: u32)
    requires there { CellIsThere core.old.run.world.world.cells (Ref array) }
    requires room { length (items_of core.old.run.world.world.cells (Ref array)) ≤ core.old.arguments.room }
    ensures { core.new ≡ keeping (items_of core.old.run.world.world.cells (Ref array)) core.old }
{
    take_items(&mut core.run.world, &mut core.arguments, array)
}

/// Puts the arguments that are kept where those of a call stand, from the floor on.
#[tactic(auto, using(crate::proofs::Placed::floor_laid, crate::proofs::Placed::values_placed))]
pub fn place_kept(code: &CodeProgram, core: &mut Core, at: Registers, sent: Sent) -> Registers
    requires left { IsLeft code.now core.old at sent }
    requires room { sent.floor + length core.old.arguments.items ≤ core.old.stack.values.room }
    ensures { ArePlaced code.now core.old at sent.floor core.old.arguments.items core.new result }
{
    let _code = code;
    let below = Registers {
        top: sent.floor,
        ..at
    };
    core.stack.make_room(below, core.arguments.count());
    core.stack.push_all(below, core.arguments.as_slice())
}
