//! Where the entries of an object stand: from the topmost declared class down, for each class its
//! slots and then its nested classes.

ghost use Rattle.std.specs.Prelude.{◌≡◌, ◌<◌, ◌≤◌, ◌^◌, IsTrue};
ghost use Rattle.ns_world.specs.Heap.{find_cell, is_class, is_chain_start};
ghost use Rattle.ns_world.specs.Lawful.{IsLawful};
ghost use Rattle.ns_world.specs.Layout.{declaration_of, entries_of, layout_of, entry_word};

use ns_code::program::CodeProgram;
use ns_world::world::World;

/// How many entries the instances of a class have: the slots and the nested classes of its chain.
/// Those of the classes above it were counted when it was made.
#[tactic(auto, using(crate::proofs::Based::with_own, crate::proofs::Based::base_few, crate::specs::laws::Bounds::layout_end))]
pub fn layout(world: &World, code: &CodeProgram, class: u32) -> u32
    requires lawful { IsLawful world.now.world code.now }
    requires class { IsTrue (is_chain_start world.now.world.cells class) }
    ensures count { result ≡ layout_of world.now.world.cells code.now class }
    ensures small { result ≤ 33553920 }
{
    if world.is_past(class) {
        return 0;
    }
    world.base(class) + entries(code, world.declaration(class))
}

/// The word at which every object whose chain has this holder keeps the entry of that number. The
/// holder's slots are counted from 0, and its nested classes after them.
#[tactic(auto, using(crate::proofs::Based::based, crate::proofs::Based::base_few))]
pub fn word(world: &World, code: &CodeProgram, holder: u32, entry: u32) -> u32
    requires lawful { IsLawful world.now.world code.now }
    requires holder { IsTrue (is_class (find_cell world.now.world.cells holder)) }
    requires entry { entry < entries_of code.now (declaration_of world.now.world.cells holder) }
    ensures { result ≡ entry_word world.now.world.cells code.now holder entry }
{
    world.base(holder) + entry
}

/// How many entries a declaration adds.
fn entries(code: &CodeProgram, decl: u32) -> u32
    requires { entries_of code.now decl < 2 ^ 32 }
    ensures { result ≡ entries_of code.now decl }
{
    match code.classes.as_slice().get(decl as usize) {
        Some(class) => (class.slots.len() + class.nested.len()) as u32,
        None => 0,
    }
}
