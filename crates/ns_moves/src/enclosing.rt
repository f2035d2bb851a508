//! The objects around running code, and the private members of their declarations.

ghost use Rattle.std.specs.Prelude.{◌≡◌, ◌≤◌, IsSome, IsTrue, All};
ghost use Rattle.ns_world.specs.Heap.{find_cell, is_class, shape_at};
ghost use Rattle.ns_world.specs.Lawful.{IsLawful};
ghost use Rattle.ns_find.specs.Memo.{PlaceIsRight};
ghost use Rattle.ns_moves.specs.declared.site.Site.{Site};
ghost use Rattle.ns_moves.specs.Bodies as bodies;
ghost use Rattle.ns_moves.specs.Lawful.{FitsActivation, declaration_at};
ghost use Rattle.ns_moves.specs.Enclosing.{place_of};
ghost use Rattle.ns_moves.specs.Running.{activation_at, code_of};

use crate::finding::enclosing_objects_are_there;
use crate::running::Running;
use ns_code::program::CodeProgram;
use ns_find::memo::Memo;
use ns_find::ways::{Between, way_out};
use ns_world::cell::NewCell;
use ns_world::value::{Value, cell_number};
use ns_world::world::World;

/// From so many levels on the way out is kept.
const FAR: u8 = 8;

/// An object, and the class in its chain by which it is meant.
#[derive(Clone, Copy)]
pub struct Surrounding {
    pub object: Value,
    pub holder: u32,
}

/// Self and the holder of running code, and so many declarations further out the enclosing object
/// and its holder.
#[inline(always)]
pub fn enclosing(world: &World, code: &CodeProgram, running: Running, level: u8) -> Surrounding
    requires lawful { IsLawful world.now.world code.now }
    requires running { FitsActivation world.now.world.cells code.now (code_of running) }
    requires level { IsSome (declaration_at code.now running.body level) }
    ensures { (site : Site) → place_of result ≡ bodies.enclosing world.now.world.cells (activation_at site running) level }
{
    enclosing_objects_are_there();
    let mut at = Surrounding {
        object: running.me,
        holder: running.holder,
    };
    'out: for _level in 0..level {
        at = around(world, at.holder);
    }
    at
}

/// Self, or so many declarations further out the enclosing object. What is far out is found by ways that are kept.
#[inline(always)]
pub fn enclosing_object(
    world: &World,
    code: &CodeProgram,
    memo: &mut Memo,
    running: Running,
    level: u8,
) -> Value
    requires lawful { IsLawful world.now.world code.now }
    requires running { FitsActivation world.now.world.cells code.now (code_of running) }
    requires level { IsSome (declaration_at code.now running.body level) }
    requires kept { All (PlaceIsRight world.now.world.cells code.now) memo.old }
    ensures object { (site : Site) → result ≡ (bodies.enclosing world.now.world.cells (activation_at site running) level).object }
    ensures keeps { All (PlaceIsRight world.now.world.cells code.now) memo.new }
{
    if level < FAR {
        return enclosing(world, code, running, level).object;
    }
    far_object(world, code, memo, running, level)
}

/// The same far out.
#[inline(always)]
fn far_object(
    world: &World,
    code: &CodeProgram,
    memo: &mut Memo,
    running: Running,
    level: u8,
) -> Value
    requires lawful { IsLawful world.now.world code.now }
    requires running { FitsActivation world.now.world.cells code.now (code_of running) }
    requires level { IsSome (declaration_at code.now running.body level) }
    requires far { 8 ≤ level }
    requires kept { All (PlaceIsRight world.now.world.cells code.now) memo.old }
    ensures object { (site : Site) → result ≡ (bodies.enclosing world.now.world.cells (activation_at site running) level).object }
    ensures keeps { All (PlaceIsRight world.now.world.cells code.now) memo.new }
{
    enclosing_objects_are_there();
    let inside = way_out(
        world,
        code,
        memo,
        Between::Classes,
        running.holder,
        level - 1,
    );
    around(world, inside).object
}

/// The object and the holder that enclose a class.
#[inline(always)]
fn around(world: &World, class: u32) -> Surrounding
    requires { IsTrue (is_class (find_cell world.now.world.cells class)) }
    ensures { place_of result ≡ bodies.enclosing_place (shape_at world.now.world.cells class) }
{
    match world.cell(class) {
        NewCell::Class { encl, holder, .. } => Surrounding {
            object: encl,
            holder: cell_number(holder),
        },
        _ => Surrounding {
            object: Value::Nil,
            holder: 0,
        },
    }
}
