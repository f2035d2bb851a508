//! The environments around running code, in which its locals stand.

ghost use Rattle.std.specs.Prelude.{◌≡◌, IsTrue, All};
ghost use Rattle.ns_world.specs.Heap as heap;
ghost use Rattle.ns_world.specs.Heap.{find_cell, shape_at};
ghost use Rattle.ns_find.specs.Memo.{PlaceIsRight};
ghost use Rattle.ns_world.specs.Lawful.{is_environment};
ghost use Rattle.ns_moves.specs.Bodies as spec;
ghost use Rattle.ns_moves.specs.Locals.{HasEnvironments};

use ns_code::program::CodeProgram;
use ns_find::memo::Memo;
use ns_find::ways::{Between, way_out};
use ns_world::value::{Value, cell_number};
use ns_world::world::World;

/// From so many bodies out on the way is kept.
const FAR: u8 = 8;

/// The number of the environment so many bodies out from one. What is far out is found by ways that are kept.
#[inline(always)]
pub fn environment_number(
    world: &World,
    code: &CodeProgram,
    memo: &mut Memo,
    env: Value,
    hops: u8,
) -> u32
    requires way { HasEnvironments world.now.world.cells env hops }
    requires kept { All (PlaceIsRight world.now.world.cells code.now) memo.old }
    ensures number { result ≡ heap.cell_number (spec.environment_out world.now.world.cells env hops) }
    ensures keeps { All (PlaceIsRight world.now.world.cells code.now) memo.new }
{
    if hops == 0 {
        return cell_number(env);
    }
    if hops == 1 {
        return parent(world, cell_number(env));
    }
    if hops < FAR {
        return near_number(world, env, hops);
    }
    far_number(world, code, memo, env, hops)
}

/// The same far out.
#[inline(always)]
fn far_number(world: &World, code: &CodeProgram, memo: &mut Memo, env: Value, hops: u8) -> u32
    requires way { HasEnvironments world.now.world.cells env hops }
    requires kept { All (PlaceIsRight world.now.world.cells code.now) memo.old }
    ensures number { result ≡ heap.cell_number (spec.environment_out world.now.world.cells env hops) }
    ensures keeps { All (PlaceIsRight world.now.world.cells code.now) memo.new }
{
    way_out(
        world,
        code,
        memo,
        Between::Environments,
        cell_number(env),
        hops,
    )
}

/// The same near by.
#[inline(always)]
fn near_number(world: &World, env: Value, hops: u8) -> u32
    requires { HasEnvironments world.now.world.cells env hops }
    ensures { result ≡ heap.cell_number (spec.environment_out world.now.world.cells env hops) }
{
    let mut at = cell_number(env);
    'out: for _hop in 0..hops {
        at = parent(world, at);
    }
    at
}

/// The number of the environment around another.
#[inline(always)]
#[tactic(auto, using(crate::proofs::Around::parent_number))]
fn parent(world: &World, at: u32) -> u32
    requires { IsTrue (is_environment (find_cell world.now.world.cells at)) }
    ensures { result ≡ heap.cell_number (spec.parent_in (shape_at world.now.world.cells at)) }
{
    world.parent(at)
}
