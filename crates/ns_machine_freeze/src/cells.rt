//! The cells of a world as plain data.

ghost use Rattle.std.specs.Prelude.{◌≡◌, List, [], length, IsSome, OnOk, IfOk};
ghost use Rattle.ns_world.specs.declared.value.Value.{Value};
ghost use Rattle.ns_world.specs.Heap.{find_cell, shape_at, words_at, bytes_at};
ghost use Rattle.ns_frozen.specs.Freezing.{cells_frozen};
ghost use Rattle.ns_frozen.specs.Heads as heads;
ghost use Rattle.ns_frozen.specs.Heads.{with_cell};
ghost use Rattle.ns_machine_freeze.specs.Walk.{data_at, data_of};

use ns_base::no_memory::NoMemory;
use ns_frozen::pools::{BlockData, NewData};
use ns_frozen::stored::{Cells, CellsMaker};
use ns_world::cell::NewCell;
use ns_world::world::World;
use std::alloc::Global;

/// All cells, the oldest first.
pub fn cells(alloc: Global, world: &World) -> Result<Cells, NoMemory>
    ensures { IfOk result (λ cells. cells ≡ cells_frozen world.now.world.cells) }
{
    let end = world.counters().cells;
    let mut made = CellsMaker::new(alloc);
    let mut text = Vec::new(alloc);
    let mut at: u32 = 0;
    'walk: while u64::from(at) < end {
        put_cell(world, at, &mut made, &mut text)?;
        at = world.next(at);
    }
    Ok(Cells::of(made))
}

/// Puts the cell of that number.
fn put_cell(
    world: &World,
    at: u32,
    made: &mut CellsMaker,
    text: &mut Vec<u8>,
) -> Result<(), NoMemory>
    requires there { IsSome (find_cell world.now.world.cells at) }
    requires none { made.old.words ≡ [] }
    ensures { OnOk result (made.new ≡ with_cell (data_at world.now.world.cells at) made.old) }
{
    let shape = world.cell(at);
    gather(world, at, shape, made, text)?;
    made.put(new_data(shape, text.as_slice()))
}

/// Puts the words of a cell of that shape, or gathers its bytes, where it has some.
fn gather(
    world: &World,
    at: u32,
    shape: NewCell,
    made: &mut CellsMaker,
    text: &mut Vec<u8>,
) -> Result<(), NoMemory>
    requires there { IsSome (find_cell world.now.world.cells at) }
    requires shape { shape ≡ shape_at world.now.world.cells at }
    requires none { made.old.words ≡ [] }
    ensures cells { OnOk result (made.new.cells ≡ made.old.cells) }
    ensures held { OnOk result (data_of shape made.new.words text.new.items ≡ data_at world.now.world.cells at) }
{
    match shape {
        NewCell::Object { class: _, words } => put_words(world, at, words, made),
        NewCell::Class { .. } => Ok(()),
        NewCell::Block { .. } => Ok(()),
        NewCell::Environment { parent: _, locals } => put_words(world, at, locals, made),
        NewCell::Array { size } => put_words(world, at, size, made),
        NewCell::Text { bytes } => gather_bytes(world, at, bytes, text),
        NewCell::Facet(_) => Ok(()),
        NewCell::Mirror(_) => Ok(()),
        NewCell::Message { .. } => Ok(()),
    }
}

/// A cell of that shape, as it is put; a text has these bytes.
fn new_data(shape: NewCell, text: &[u8]) -> NewData<'_>
    ensures { (words : List Value) → heads.data_of result words ≡ data_of shape words text.now }
{
    match shape {
        NewCell::Object { class, words: _ } => NewData::Object(class),
        NewCell::Class {
            decl,
            base: _,
            encl,
            holder,
            over,
        } => NewData::Class {
            decl,
            encl,
            holder,
            over,
        },
        NewCell::Block {
            body,
            env,
            home,
            receiver,
            holder,
        } => NewData::Block(BlockData {
            body,
            env,
            receiver,
            holder,
            home,
        }),
        NewCell::Environment { parent, locals: _ } => NewData::Environment(parent),
        NewCell::Array { size: _ } => NewData::Array,
        NewCell::Text { bytes: _ } => NewData::Text(text),
        NewCell::Facet(kind) => NewData::Facet(kind),
        NewCell::Mirror(mirrored) => NewData::Mirror(mirrored),
        NewCell::Message { sel, args } => NewData::Message { sel, args },
    }
}

/// Puts the words of a cell, of which there are so many.
fn put_words(world: &World, at: u32, count: u32, made: &mut CellsMaker) -> Result<(), NoMemory>
    requires count { count ≡ length (words_at world.now.world.cells at) }
    requires none { made.old.words ≡ [] }
    ensures cells { OnOk result (made.new.cells ≡ made.old.cells) }
    ensures words { OnOk result (made.new.words ≡ words_at world.now.world.cells at) }
{
    'reading: for word in 0..count {
        made.word(world.read(at, word))?;
    }
    Ok(())
}

/// Gathers the bytes of a text, of which there are so many.
fn gather_bytes(world: &World, at: u32, count: u32, text: &mut Vec<u8>) -> Result<(), NoMemory>
    requires { count ≡ length (bytes_at world.now.world.cells at) }
    ensures { OnOk result (text.new.items ≡ bytes_at world.now.world.cells at) }
{
    text.clear();
    'reading: for place in 0..count {
        text.push(world.byte(at, place))?;
    }
    Ok(())
}
