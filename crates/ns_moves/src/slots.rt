//! Slots that initialisers fill.

ghost use Rattle.std.specs.Prelude.{◌≡◌, IsTrue};
ghost use Rattle.ns_world.specs.Heap.{find_cell, is_class};
ghost use Rattle.ns_world.specs.Lawful.{IsLawful};
ghost use Rattle.ns_moves.specs.declared.site.Site.{Site};
ghost use Rattle.ns_moves.specs.Control.{Progress, in_world};
ghost use Rattle.ns_moves.specs.Classes as spec;
ghost use Rattle.ns_moves.specs.Lawful.{FitsSlot};
ghost use Rattle.ns_moves.specs.Room.{SameRest};
ghost use Rattle.ns_moves.specs.Running.{activation_at, code_of};

use crate::finding::entries_are_inside;
use crate::running::Running;
use ns_classes::layout::word;
use ns_code::program::CodeProgram;
use ns_world::value::Value;
use ns_world::world::World;

/// Fills a slot of the holder of running code in its self.
#[inline]
pub fn fill_slot(world: &mut World, code: &CodeProgram, running: Running, slot: u16, value: Value)
    requires lawful { IsLawful world.old.world code.now }
    requires slot { FitsSlot world.old.world.cells code.now (code_of running) slot }
    requires class { IsTrue (is_class (find_cell world.old.world.cells running.holder)) }
    ensures filled { (site : Site) (rest : Progress) →
        in_world rest world.new.world ≡ spec.slot_filled code.now (activation_at site running) slot value (in_world rest world.old.world) }
    ensures rest { SameRest world.old world.new }
{
    entries_are_inside();
    let at = word(world, code, running.holder, u32::from(slot));
    world.store(running.me, at, value);
}
