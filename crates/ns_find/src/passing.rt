//! Which declarations a lookup passes by, as they have no member of its name.

ghost use Rattle.std.specs.Prelude.{◌≡◌, ◌≤◌, ℕ, IsTrue, length, slice_set, false};
ghost use Rattle.std.specs.List.{slice_index_or};
ghost use Rattle.ns_code.specs.declared.program.CodeProgram.{CodeProgram};
ghost use Rattle.ns_code.specs.Fits.{Fits};
ghost use Rattle.ns_code.specs.Soundness.{has_sound_classes};
ghost use Rattle.ns_world.specs.Heap.{Heap, chain_of, is_chain_start};
ghost use Rattle.ns_find.specs.Members.{search, members_along};
ghost use Rattle.ns_find.specs.Passed.{PassedHaveNone, without};
ghost use Rattle.ns_find.specs.declared.found.Sending.{Sending};
ghost use Rattle.ns_find.specs.declared.members.Side.{Side};
ghost use Rattle.ns_find.specs.declared.members.Side.TheVariants.{Instance};

use crate::members::Side;
use ns_base::selector::Sel;
use ns_code::listed::Listed;
use ns_code::program::CodeProgram;
use ns_world::world::World;

/// The first class of a chain whose declaration isn't passed by, the number of no class where each is.
#[inline(never)]
pub fn next_stop(world: &World, passed: &[bool], class: u32) -> u32
    requires class { IsTrue (is_chain_start world.now.world.cells class) }
    ensures start { IsTrue (is_chain_start world.now.world.cells result) }
    ensures shorter { length (chain_of world.now.world.cells result) ≤ length (chain_of world.now.world.cells class) }
    ensures same { (code : CodeProgram) (side : Side) (sel : ℕ) (kind : Sending) →
        PassedHaveNone world.now.world.cells code side sel kind passed.now →
        search code sel kind (members_along world.now.world.cells code side (chain_of world.now.world.cells result))
        ≡ search code sel kind (members_along world.now.world.cells code side (chain_of world.now.world.cells class)) }
{
    let mut at = class;
    'up: while !world.is_past(at) {
        if !is_passed(passed, world.declaration(at) as usize) {
            return at;
        }
        at = world.superclass(at);
    }
    at
}

/// Whether a declaration is passed by, which one without a flag isn't.
#[inline(always)]
fn is_passed(passed: &[bool], declaration: usize) -> bool
    ensures { result ≡ slice_index_or passed.now declaration false }
{
    match passed.get(declaration) {
        Some(flag) => *flag,
        None => false,
    }
}

/// No longer passes by those that may have a member of that name.
#[inline(never)]
pub fn stop_at_declaring(code: &CodeProgram, passed: &mut [bool], side: Side, sel: Sel)
    requires fits { Fits code.now }
    requires sound { IsTrue (has_sound_classes code.now) }
    ensures room { length passed.new ≡ length passed.old }
    ensures passed { (heap : Heap) (kind : Sending) → PassedHaveNone heap code.now side sel.0 kind passed.new }
{
    match side {
        Side::Instance => stop_on_instances(code, passed, sel),
        Side::Class => stop_at(passed, code.classes.with_side_method(sel)),
    }
}

/// The same on the instance side, where the selector may be a slot's name with a colon.
fn stop_on_instances(code: &CodeProgram, passed: &mut [bool], sel: Sel)
    requires fits { Fits code.now }
    requires sound { IsTrue (has_sound_classes code.now) }
    ensures room { length passed.new ≡ length passed.old }
    ensures passed { (heap : Heap) (kind : Sending) → PassedHaveNone heap code.now Instance sel.0 kind passed.new }
{
    stop_at(passed, code.classes.with_member(sel));
    match code.names.front(sel) {
        Some(name) => stop_at(passed, code.classes.with_setter(Sel(name))),
        None => {}
    }
}

/// No longer passes by those listed.
fn stop_at(passed: &mut [bool], listed: &[Listed])
    ensures flags { passed.new ≡ without passed.old listed.now }
    ensures room { length passed.new ≡ length passed.old }
{
    'listed: for one in listed {
        stop(passed, one.declaration as usize);
    }
}

/// No longer passes by that one.
#[tactic(auto, using(crate::proofs::Declaring::kept_past))]
fn stop(passed: &mut [bool], declaration: usize)
    ensures flags { passed.new ≡ slice_set passed.old declaration false }
    ensures room { length passed.new ≡ length passed.old }
{
    if declaration < passed.len() {
        passed[declaration] = false;
    }
}
