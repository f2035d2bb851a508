//! Ways out of a class or an environment, which are kept, so that far out is one step.

ghost use Rattle.std.specs.Prelude.{◌≡◌, ◌<◌, ◌≤◌, All, IsSome};
ghost use Rattle.ns_world.specs.Heap.{find_cell, shape_at};
ghost use Rattle.ns_find.specs.Outward as spec;
ghost use Rattle.ns_find.specs.Outward.{outward, IsWay};
ghost use Rattle.ns_find.specs.Memo.{PlaceIsRight};

use crate::memo::{Kept, Memo, Way};
use ns_code::program::CodeProgram;
use ns_world::cell::NewCell;
use ns_world::value::cell_number;
use ns_world::world::World;

/// Between what a way leads: ways of either kind have places of their own.
#[derive(Clone, Copy)]
pub enum Between {
    Classes,
    Environments,
}

/// The number of the cell that stands so many further out. The way is kept, and so is each shorter one from the same cell
/// that was gone for it. Takes no memory.
#[inline(never)]
#[cold]
pub fn way_out(
    world: &World,
    code: &CodeProgram,
    memo: &mut Memo,
    between: Between,
    from: u32,
    levels: u8,
) -> u32
    requires way { IsWay world.now.world.cells from levels }
    requires kept { All (PlaceIsRight world.now.world.cells code.now) memo.old }
    ensures out { result ≡ outward world.now.world.cells from levels }
    ensures keeps { All (PlaceIsRight world.now.world.cells code.now) memo.new }
{
    match memo.kept_way(place_of(between, levels), from, levels) {
        Some(to) => to,
        None => go_out(world, code, memo, between, from, levels),
    }
}

/// The same, where it isn't kept: from the end of the longest shorter way that is.
#[inline(never)]
fn go_out(
    world: &World,
    code: &CodeProgram,
    memo: &mut Memo,
    between: Between,
    from: u32,
    levels: u8,
) -> u32
    requires way { IsWay world.now.world.cells from levels }
    requires kept { All (PlaceIsRight world.now.world.cells code.now) memo.old }
    ensures out { result ≡ outward world.now.world.cells from levels }
    ensures keeps { All (PlaceIsRight world.now.world.cells code.now) memo.new }
{
    let near = nearest(world, code, memo, between, from, levels);
    let mut to = near.to;
    'out: for level in near.levels..levels {
        to = around(world, to);
        let longer = level + 1;
        let way = Way {
            from,
            levels: longer,
            to,
        };
        memo.keep(place_of(between, longer), Kept::Out(way));
    }
    to
}

/// The longest way from a cell that is kept and shorter than that, or the one to the cell itself.
#[inline(never)]
fn nearest(
    world: &World,
    code: &CodeProgram,
    memo: &Memo,
    between: Between,
    from: u32,
    levels: u8,
) -> Way
    requires kept { All (PlaceIsRight world.now.world.cells code.now) memo.now }
    ensures shorter { result.levels ≤ levels }
    ensures end { result.to ≡ outward world.now.world.cells from result.levels }
{
    let _world = world;
    let _code = code;
    let mut shorter = levels;
    'inward: while 0 < shorter {
        shorter -= 1;
        match memo.kept_way(place_of(between, shorter), from, shorter) {
            Some(to) => {
                return Way {
                    from,
                    levels: shorter,
                    to,
                };
            }
            None => {}
        }
    }
    Way {
        from,
        levels: 0,
        to: from,
    }
}

/// The number of what stands around a cell.
#[inline(always)]
fn around(world: &World, at: u32) -> u32
    requires { IsSome (find_cell world.now.world.cells at) }
    ensures { result ≡ spec.around (shape_at world.now.world.cells at) }
{
    match world.cell(at) {
        NewCell::Class { holder, .. } => cell_number(holder),
        NewCell::Environment { parent, .. } => cell_number(parent),
        _ => 0,
    }
}

/// The place of a way, by its length.
#[inline(always)]
fn place_of(between: Between, levels: u8) -> usize
    ensures { result < 1536 }
{
    match between {
        Between::Classes => 1024 + levels as usize,
        Between::Environments => 1280 + levels as usize,
    }
}
