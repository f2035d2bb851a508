//! The first cells of the world in which the rows are tried. The definitions of the same names say
//! what it holds.

ghost use Rattle.std.specs.Prelude.{◌≡◌, ◌∷◌, ◌≤◌, [], true, drop, IfSome, IsTrue};
ghost use Rattle.ns_world.specs.Cell.{fresh};
ghost use Rattle.ns_world.specs.Heap.{has_superclass};
ghost use Rattle.ns_world_setting.specs.Cells as spec;
ghost use Rattle.ns_code.specs.Sample.{sel};

use ns_base::limits::Limits;
use ns_base::selector::Sel;
use ns_world::cell::{FacetKind, NewCell};
use ns_world::kernel::NO_CLASS;
use ns_world::value::{KClass, Value};
use ns_world::world::World;
use std::alloc::Global;

/// A world of 200 cells and 12 bytes of output, without cells.
pub fn empty_world(alloc: Global) -> Option<World>
    ensures world { IfSome result (λ w. w.world ≡ spec.tried_with []) }
    ensures cells { IfSome result (λ w. w.world.limits.cells ≤ w.cell_room) }
    ensures out { IfSome result (λ w. w.world.limits.out ≤ w.out_room) }
{
    let limits = Limits {
        steps: 10,
        cells: 200,
        depth: 10,
        out: 12,
    };
    let mut world = World::new(alloc, limits);
    match world.reserve(200) {
        Ok(()) => Some(world),
        Err(_) => None,
    }
}

/// The same with all facets, classes and objects, an array, a message and a block.
pub fn tried_world(alloc: Global) -> Option<World>
    ensures world { IfSome result (λ w. w.world ≡ spec.tried_with spec.tried_cells) }
    ensures cells { IfSome result (λ w. w.world.limits.cells ≤ w.cell_room) }
    ensures out { IfSome result (λ w. w.world.limits.out ≤ w.out_room) }
{
    let mut world = empty_world(alloc)?;
    if !put_facets(&mut world) {
        return None;
    }
    if !put_classes(&mut world) {
        return None;
    }
    if !put_objects(&mut world) {
        return None;
    }
    if !put_parts(&mut world) {
        return None;
    }
    if !put_rest(&mut world) {
        return None;
    }
    Some(world)
}

/// Makes a cell and tells whether it fits.
fn put(world: &mut World, cell: NewCell) -> bool
    requires room { world.old.world.limits.cells ≤ world.old.cell_room }
    requires superclass { IsTrue (has_superclass world.old.world.cells (fresh cell)) }
    ensures made { result ≡ true → world.new.world ≡ record world.old.world { cells = fresh cell ∷ world.old.world.cells } }
    ensures limits { world.new.world.limits ≡ world.old.world.limits }
    ensures room { world.new.cell_room ≡ world.old.cell_room }
    ensures out { world.new.out_room ≡ world.old.out_room }
{
    world.make(cell).is_ok()
}

fn put_facets(world: &mut World) -> bool
    requires before { world.old.world ≡ spec.tried_with [] }
    requires room { world.old.world.limits.cells ≤ world.old.cell_room }
    ensures after { result ≡ true → world.new.world ≡ spec.tried_with spec.facet_cells }
    ensures limits { world.new.world.limits ≡ world.old.world.limits }
    ensures room { world.new.cell_room ≡ world.old.cell_room }
    ensures out { world.new.out_room ≡ world.old.out_room }
{
    put_first_facets(world)
        && put(world, NewCell::Facet(FacetKind::Mirrors))
        && put(world, NewCell::Facet(FacetKind::Kernel))
        && put(world, NewCell::Facet(FacetKind::Board))
}

fn put_first_facets(world: &mut World) -> bool
    requires before { world.old.world ≡ spec.tried_with [] }
    requires room { world.old.world.limits.cells ≤ world.old.cell_room }
    ensures after { result ≡ true → world.new.world ≡ spec.tried_with (drop 3 spec.facet_cells) }
    ensures limits { world.new.world.limits ≡ world.old.world.limits }
    ensures room { world.new.cell_room ≡ world.old.cell_room }
    ensures out { world.new.out_room ≡ world.old.out_room }
{
    put(world, NewCell::Facet(FacetKind::Manifest))
        && put(world, NewCell::Facet(FacetKind::Platform))
        && put(world, NewCell::Facet(FacetKind::Console))
}

fn put_classes(world: &mut World) -> bool
    requires before { world.old.world ≡ spec.tried_with spec.facet_cells }
    requires room { world.old.world.limits.cells ≤ world.old.cell_room }
    ensures after { result ≡ true → world.new.world ≡ spec.tried_with spec.class_cells }
    ensures limits { world.new.world.limits ≡ world.old.world.limits }
    ensures room { world.new.cell_room ≡ world.old.cell_room }
    ensures out { world.new.out_room ≡ world.old.out_room }
{
    put(world, top(0, 0, Value::Kernel(KClass::Object)))
        && put(world, top(2, 3, Value::Ref(6)))
        && put(world, top(3, 0, Value::Kernel(KClass::Object)))
}

fn top(decl: u32, base: u32, over: Value) -> NewCell
    ensures { fresh result ≡ spec.top_class decl base over }
{
    NewCell::Class {
        decl,
        base,
        encl: Value::Nil,
        holder: Value::Nil,
        over,
    }
}

fn put_objects(world: &mut World) -> bool
    requires before { world.old.world ≡ spec.tried_with spec.class_cells }
    requires room { world.old.world.limits.cells ≤ world.old.cell_room }
    ensures after { result ≡ true → world.new.world ≡ spec.tried_with spec.filled_objects }
    ensures limits { world.new.world.limits ≡ world.old.world.limits }
    ensures room { world.new.cell_room ≡ world.old.cell_room }
    ensures out { world.new.out_room ≡ world.old.out_room }
{
    if !put_empty_objects(world) {
        return false;
    }
    world.write(22, 0, Value::Int(1));
    world.write(22, 1, Value::Int(2));
    world.write(22, 3, Value::Int(3));
    world.write(22, 4, Value::Int(4));
    true
}

fn put_empty_objects(world: &mut World) -> bool
    requires before { world.old.world ≡ spec.tried_with spec.class_cells }
    requires room { world.old.world.limits.cells ≤ world.old.cell_room }
    ensures after { result ≡ true → world.new.world ≡ spec.tried_with spec.empty_objects }
    ensures limits { world.new.world.limits ≡ world.old.world.limits }
    ensures room { world.new.cell_room ≡ world.old.cell_room }
    ensures out { world.new.out_room ≡ world.old.out_room }
{
    put(world, NewCell::Object { class: 6, words: 3 })
        && put(
            world,
            NewCell::Object {
                class: 10,
                words: 5,
            },
        )
}

fn put_parts(world: &mut World) -> bool
    requires before { world.old.world ≡ spec.tried_with spec.filled_objects }
    requires room { world.old.world.limits.cells ≤ world.old.cell_room }
    ensures after { result ≡ true → world.new.world ≡ spec.tried_with spec.part_cells }
    ensures limits { world.new.world.limits ≡ world.old.world.limits }
    ensures room { world.new.cell_room ≡ world.old.cell_room }
    ensures out { world.new.out_room ≡ world.old.out_room }
{
    put(
        world,
        NewCell::Class {
            decl: 1,
            base: 0,
            encl: Value::Ref(18),
            holder: Value::Ref(6),
            over: Value::Kernel(KClass::Object),
        },
    ) && put(
        world,
        NewCell::Object {
            class: 28,
            words: 0,
        },
    ) && put(
        world,
        NewCell::Object {
            class: NO_CLASS,
            words: 0,
        },
    )
}

fn put_rest(world: &mut World) -> bool
    requires before { world.old.world ≡ spec.tried_with spec.part_cells }
    requires room { world.old.world.limits.cells ≤ world.old.cell_room }
    ensures after { result ≡ true → world.new.world ≡ spec.tried_with spec.tried_cells }
    ensures limits { world.new.world.limits ≡ world.old.world.limits }
    ensures room { world.new.cell_room ≡ world.old.cell_room }
    ensures out { world.new.out_room ≡ world.old.out_room }
{
    put(world, NewCell::Array { size: 2 })
        && put(
            world,
            NewCell::Message {
                sel: Sel(14),
                args: Value::Ref(34),
            },
        )
        && put(
            world,
            NewCell::Block {
                body: 11,
                env: Value::Nil,
                home: 0,
                receiver: Value::Ref(18),
                holder: 6,
            },
        )
}
