//! The world in which the rows are tried, and calls of the rows in it.

ghost use Rattle.std.specs.Prelude.{◌≡◌, ◌<◌, length, true, IsSome, IsTrue, IfSome};
ghost use Rattle.ns_world.specs.Cell.{fresh};
ghost use Rattle.ns_world.specs.Heap.{bytes_at, find_cell, has_superclass};
ghost use Rattle.ns_world.specs.Keeping.{MayBeMade};
ghost use Rattle.ns_world.specs.declared.value.Value.TheVariants.{Ref};
ghost use Rattle.ns_kdata.specs.Arguments as arguments;
ghost use Rattle.ns_world.specs.Lawful.{IsLiveValue};
ghost use Rattle.ns_world_setting.specs.Program.{program_code as the_code};
ghost use Rattle.ns_world_setting.specs.Ready.{WorldIsReady};

use crate::cells::{empty_world, tried_world};
use crate::looking::{is_cell, is_live};
use crate::program::program_code;
use ns_code::program::CodeProgram;
use ns_kdata::arguments::{array_size, is_array, text_size};
use ns_world::cell::{CellLimit, NewCell};
use ns_world::ending::LimitKind;
use ns_world::value::Value;
use ns_world::world::World;
use std::alloc::Global;

/// Classes: Sub stands over the first Base, and Part is enclosed by the object of Base.
pub const BASE: Value = Value::Ref(6);

pub const SUB: Value = Value::Ref(10);

pub const OTHER_BASE: Value = Value::Ref(14);

pub const PART: Value = Value::Ref(28);

/// An object of each class, and one of the kernel's Object.
pub const BASE_OBJECT: Value = Value::Ref(18);

pub const SUB_OBJECT: Value = Value::Ref(22);

pub const PART_OBJECT: Value = Value::Ref(32);

pub const PLAIN_OBJECT: Value = Value::Ref(33);

/// An array of 7 and `ANN`, a message `at:put:` with this array, and a block.
pub const PAIR: Value = Value::Ref(34);

pub const MESSAGE: Value = Value::Ref(37);

pub const BLOCK: Value = Value::Ref(40);

/// Texts, by what they say.
pub const ANN: Value = Value::Ref(43);

pub const ANN_AGAIN: Value = Value::Ref(45);

pub const ANNA: Value = Value::Ref(47);

pub const BOB: Value = Value::Ref(49);

pub const EMPTY: Value = Value::Ref(51);

pub const ITS: Value = Value::Ref(52);

pub const HELLO: Value = Value::Ref(54);

pub const NINE_BYTES: Value = Value::Ref(56);

pub const QUOTES: Value = Value::Ref(59);

pub const TWELVE_BYTES: Value = Value::Ref(61);

pub const ELEVEN_BYTES: Value = Value::Ref(64);

/// Arrays without an element, and of 4 alone.
pub const NO_ITEMS: Value = Value::Ref(67);

pub const ONE_ITEM: Value = Value::Ref(68);

/// A mirror of 3.
pub const MIRROR: Value = Value::Ref(70);

/// The number of cells that all these take.
pub const USED: u64 = 72;

/// The program and a world of it.
#[derive(Drop)]
pub struct Setting {
    pub code: CodeProgram,
    pub world: World,
}

/// The program and a world of 200 cells that holds the values above and all facets.
pub fn set_up(alloc: Global) -> Option<Setting>
    ensures code { IfSome result (λ w. w.code ≡ the_code) }
    ensures ready { IfSome result (λ w. WorldIsReady w.world) }
{
    let world = filled_world(alloc)?;
    match program_code(alloc) {
        Ok(code) => Some(Setting { code, world }),
        Err(_) => None,
    }
}

/// The program and a world without cells.
pub fn set_up_bare(alloc: Global) -> Option<Setting>
    ensures code { IfSome result (λ w. w.code ≡ the_code) }
    ensures ready { IfSome result (λ w. WorldIsReady w.world) }
{
    let world = bare_world(alloc)?;
    match program_code(alloc) {
        Ok(code) => Some(Setting { code, world }),
        Err(_) => None,
    }
}

#[tactic(auto, using(crate::proofs::Readiness::empty_ready))]
fn bare_world(alloc: Global) -> Option<World>
    ensures { IfSome result (λ w. WorldIsReady w) }
{
    empty_world(alloc)
}

fn filled_world(alloc: Global) -> Option<World>
    ensures { IfSome result (λ w. WorldIsReady w) }
{
    let mut world = first_world(alloc)?;
    match fill(&mut world) {
        Ok(()) => Some(world),
        Err(_) => None,
    }
}

#[tactic(auto, using(crate::proofs::Readiness::tried_ready))]
fn first_world(alloc: Global) -> Option<World>
    ensures { IfSome result (λ w. WorldIsReady w) }
{
    tried_world(alloc)
}

/// Makes the texts, the other arrays and the mirror, and fills the arrays.
fn fill(world: &mut World) -> Result<(), CellLimit>
    requires { WorldIsReady world.old }
    ensures { WorldIsReady world.new }
{
    'texts: for bytes in [
        b"Ann".as_slice(),
        b"Ann".as_slice(),
        b"Anna".as_slice(),
        b"Bob".as_slice(),
        b"".as_slice(),
        b"it's".as_slice(),
        b"Hello".as_slice(),
        b"Ann 1234\xff".as_slice(),
        b"''".as_slice(),
        b"twelve bytes".as_slice(),
        b"eleven byte".as_slice(),
    ] {
        make_text(world, bytes)?;
    }
    make(world, NewCell::Array { size: 0 })?;
    make(world, NewCell::Array { size: 1 })?;
    make(world, NewCell::Mirror(Value::Int(3)))?;
    set_item(world, PAIR, 0, Value::Int(7));
    set_item(world, PAIR, 1, ANN);
    set_item(world, ONE_ITEM, 0, Value::Int(4));
    Ok(())
}

fn make_text(world: &mut World, bytes: &[u8]) -> Result<(), CellLimit>
    requires { WorldIsReady world.old }
    ensures { WorldIsReady world.new }
{
    let text = make(
        world,
        NewCell::Text {
            bytes: bytes.len().min(200) as u32,
        },
    )?;
    let mut place: u32 = 0;
    'bytes: for byte in bytes {
        set_byte(world, text, place, *byte);
        place = place.saturating_add(1);
    }
    Ok(())
}

/// Makes a cell that may be made.
#[tactic(auto, using(crate::proofs::Readiness::made_ready))]
fn make(world: &mut World, cell: NewCell) -> Result<u32, CellLimit>
    requires ready { WorldIsReady world.old }
    requires superclass { IsTrue (has_superclass world.old.world.cells (fresh cell)) }
    requires may { MayBeMade world.old.world.cells the_code cell }
    ensures { WorldIsReady world.new }
{
    world.make(cell)
}

/// Writes a byte, if there is such a text.
fn set_byte(world: &mut World, text: u32, place: u32, byte: u8)
    requires { WorldIsReady world.old }
    ensures { WorldIsReady world.new }
{
    if is_cell(world, text) {
        set_byte_of_cell(world, text, place, byte);
    }
}

fn set_byte_of_cell(world: &mut World, text: u32, place: u32, byte: u8)
    requires ready { WorldIsReady world.old }
    requires there { IsSome (find_cell world.old.world.cells text) }
    ensures { WorldIsReady world.new }
{
    if place < text_size(world, Value::Ref(text)) {
        write_byte(world, text, place, byte);
    }
}

fn write_byte(world: &mut World, text: u32, place: u32, byte: u8)
    requires ready { WorldIsReady world.old }
    requires inside { place < length (bytes_at world.old.world.cells text) }
    ensures { WorldIsReady world.new }
{
    world.set_byte(text, place, byte);
}

/// Writes an element, if there is such an array and the value is live.
fn set_item(world: &mut World, array: Value, place: u32, value: Value)
    requires { WorldIsReady world.old }
    ensures { WorldIsReady world.new }
{
    match array {
        Value::Ref(at) => {
            if is_cell(world, at) && is_live(world, value) {
                set_item_of_cell(world, at, place, value);
            }
        }
        _ => {}
    }
}

fn set_item_of_cell(world: &mut World, array: u32, place: u32, value: Value)
    requires ready { WorldIsReady world.old }
    requires there { IsSome (find_cell world.old.world.cells array) }
    requires live { IsLiveValue world.old.world.cells the_code value }
    ensures { WorldIsReady world.new }
{
    if is_array(world, Value::Ref(array)) {
        set_item_of_array(world, array, place, value);
    }
}

fn set_item_of_array(world: &mut World, array: u32, place: u32, value: Value)
    requires ready { WorldIsReady world.old }
    requires there { IsSome (find_cell world.old.world.cells array) }
    requires array { arguments.is_array world.old.world.cells (Ref array) ≡ true }
    requires live { IsLiveValue world.old.world.cells the_code value }
    ensures { WorldIsReady world.new }
{
    if place < array_size(world, Value::Ref(array)) {
        write_item(world, array, place, value);
    }
}

#[tactic(auto, using(ns_kdata::specs::laws::Items::items_are_words))]
fn write_item(world: &mut World, array: u32, place: u32, value: Value)
    requires ready { WorldIsReady world.old }
    requires array { arguments.is_array world.old.world.cells (Ref array) ≡ true }
    requires inside { place < length (arguments.items_of world.old.world.cells (Ref array)) }
    requires live { IsLiveValue world.old.world.cells the_code value }
    ensures { WorldIsReady world.new }
{
    world.write(array, place, value);
}

/// The same, with an array that leaves so many cells of the 200, which are at most 100.
pub fn with_room(alloc: Global, cells: u64) -> Option<Setting>
    ensures code { IfSome result (λ w. w.code ≡ the_code) }
    ensures ready { IfSome result (λ w. WorldIsReady w.world) }
{
    let mut w = set_up(alloc)?;
    if leave(&mut w.world, cells) {
        Some(w)
    } else {
        None
    }
}

/// Makes an array that leaves so many cells of the 200, which are at most 100.
pub fn leave(world: &mut World, cells: u64) -> bool
    requires { WorldIsReady world.old }
    ensures { WorldIsReady world.new }
{
    let used = world.counters().cells;
    let size = 199_u64.saturating_sub(used).saturating_sub(cells);
    make(world, NewCell::Array { size: size as u32 }).is_ok()
}

/// A mirror of a value, if it is live.
pub fn make_mirror(world: &mut World, value: Value) -> Option<u32>
    requires { WorldIsReady world.old }
    ensures { WorldIsReady world.new }
{
    if !is_live(world, value) {
        return None;
    }
    match make(world, NewCell::Mirror(value)) {
        Ok(mirror) => Some(mirror),
        Err(_) => None,
    }
}

/// Prints bytes, if they fit.
#[tactic(auto, using(crate::proofs::Readiness::printed_ready))]
pub fn print(world: &mut World, bytes: &[u8]) -> Result<(), LimitKind>
    requires { WorldIsReady world.old }
    ensures { WorldIsReady world.new }
{
    world.print(bytes)
}
