//! The slots that a mirror shows, reads and writes.

ghost use Rattle.std.specs.Prelude.{◌≡◌, ℕ, ◌+◌, ◌<◌, ◌≤◌, ◌^◌, length, IfSome, IsTrue};
ghost use Rattle.ns_world.specs.declared.value.Value.TheVariants as value_is;
ghost use Rattle.ns_world.specs.Heap.{find_cell, is_class, is_chain_start, chain_of, words_at, open_words_at};
ghost use Rattle.ns_world.specs.Lawful.{IsLawful};
ghost use Rattle.ns_code.specs.Fits.{Fits};
ghost use Rattle.ns_kdata.specs.Arguments.{CellIsThere};
ghost use Rattle.ns_kdata.specs.Outcome.{Gives};
ghost use Rattle.ns_world.specs.World.{stored};
ghost use Rattle.ns_mirror.specs.Arrays.{listed};
ghost use Rattle.ns_mirror.specs.Slots as spec;

use crate::arrays::new_array;
use crate::value::object_class;
use ns_base::selector::Sel;
use ns_classes::layout::word;
use ns_code::class::SlotCode;
use ns_code::program::CodeProgram;
use ns_kdata::arguments::{out_of_range, wrong_kind};
use ns_world::ending::{Fault, Kind};
use ns_world::value::Value;
use ns_world::world::World;

/// A slot of a declaration, by its number there.
#[derive(Clone, Copy)]
pub struct Entry {
    pub number: u32,
    pub mutable: bool,
}

/// A slot of an object, by its word.
#[derive(Clone, Copy)]
pub struct SlotPlace {
    pub word: u32,
    pub mutable: bool,
}

/// `slot:`: the value of the first slot of that name, from the class upwards.
pub fn slot(world: &World, code: &CodeProgram, object: Value, name: Value) -> Result<Value, Fault>
    requires lawful { IsLawful world.now.world code.now }
    requires there { CellIsThere world.now.world.cells object }
    ensures { result ≡ spec.slot world.now.world.cells code.now object name }
{
    match name {
        Value::Sym(sel) => read_slot(world, code, object, sel),
        _ => Err(wrong_kind()),
    }
}

fn read_slot(world: &World, code: &CodeProgram, object: Value, sel: Sel) -> Result<Value, Fault>
    requires lawful { IsLawful world.now.world code.now }
    requires there { CellIsThere world.now.world.cells object }
    ensures { result ≡ spec.read_slot world.now.world.cells object (spec.slot_of world.now.world.cells code.now object sel) }
{
    match slot_of(world, code, object, sel) {
        Some(place) => Ok(world.word_of_object(object, place.word)),
        None => Err(out_of_range()),
    }
}

/// `slot:put:`: the value, stored in the first slot of that name; FixedSlot where it is immutable.
pub fn slot_put(
    world: &mut World,
    code: &CodeProgram,
    object: Value,
    name: Value,
    value: Value,
) -> Result<Value, Fault>
    requires lawful { IsLawful world.old.world code.now }
    requires there { CellIsThere world.old.world.cells object }
    ensures { Gives (spec.slot_put world.old.world code.now object name value) world.old result world.new }
{
    match name {
        Value::Sym(sel) => write_slot(world, code, object, sel, value),
        _ => Err(wrong_kind()),
    }
}

fn write_slot(
    world: &mut World,
    code: &CodeProgram,
    object: Value,
    sel: Sel,
    value: Value,
) -> Result<Value, Fault>
    requires lawful { IsLawful world.old.world code.now }
    requires there { CellIsThere world.old.world.cells object }
    ensures { Gives (spec.write_slot world.old.world object value (spec.slot_of world.old.world.cells code.now object sel)) world.old result world.new }
{
    let Some(place) = slot_of(world, code, object, sel) else {
        return Err(out_of_range());
    };
    if !place.mutable {
        return Err(Fault::Kind(Kind::FixedSlot));
    }
    world.store(object, place.word, value);
    Ok(value)
}

/// The slot of a name of an object, with its word inside of it.
fn slot_of(world: &World, code: &CodeProgram, object: Value, sel: Sel) -> Option<SlotPlace>
    requires lawful { IsLawful world.now.world code.now }
    requires there { CellIsThere world.now.world.cells object }
    ensures slot { result ≡ spec.slot_of world.now.world.cells code.now object sel }
    ensures inside { (at : ℕ) → object ≡ value_is.Ref at → IfSome result (λ p. p.word < length (open_words_at world.now.world.cells at)) }
    ensures within { (at : ℕ) → object ≡ value_is.Ref at → IfSome result (λ p. p.word < length (words_at world.now.world.cells at)) }
{
    slot_along(world, code, object_class(world, object), sel)
}

/// The first slot of a name along a chain.
fn slot_along(world: &World, code: &CodeProgram, class: u32, sel: Sel) -> Option<SlotPlace>
    requires lawful { IsLawful world.now.world code.now }
    requires class { IsTrue (is_chain_start world.now.world.cells class) }
    ensures { result ≡ spec.slot_along world.now.world.cells code.now (chain_of world.now.world.cells class) sel }
{
    let mut at = class;
    'up: while !world.is_past(at) {
        match slot_in(world, code, at, sel) {
            Some(place) => return Some(place),
            None => at = world.superclass(at),
        }
    }
    None
}

/// The slot of a name that a holder declares.
fn slot_in(world: &World, code: &CodeProgram, holder: u32, sel: Sel) -> Option<SlotPlace>
    requires lawful { IsLawful world.now.world code.now }
    requires holder { IsTrue (is_class (find_cell world.now.world.cells holder)) }
    ensures { result ≡ spec.slot_in world.now.world.cells code.now holder sel }
{
    match entry_of(declared_slots(code, world.declaration(holder)), sel) {
        Some(entry) => Some(SlotPlace {
            word: word(world, code, holder, entry.number),
            mutable: entry.mutable,
        }),
        None => None,
    }
}

/// The first slot of a name of a declaration.
pub fn entry_of(slots: &[SlotCode], sel: Sel) -> Option<Entry>
    requires { length slots.now < 2 ^ 16 }
    ensures entry { result ≡ spec.entry_of slots.now sel 0 }
    ensures inside { IfSome result (λ e. e.number < length slots.now) }
{
    let mut number: u32 = 0;
    'slots: for slot in slots {
        if slot.name.0 == sel.0 {
            return Some(Entry {
                number,
                mutable: slot.mutable,
            });
        }
        number += 1;
    }
    None
}

/// The slots of a declaration.
fn declared_slots(code: &CodeProgram, decl: u32) -> &[SlotCode]
    requires { Fits code.now }
    ensures slots { result.now ≡ spec.declared_slots code.now decl }
    ensures few { length result.now < 2 ^ 16 }
{
    match code.classes.as_slice().get(decl as usize) {
        Some(class) => class.slots.as_slice(),
        None => &[],
    }
}

/// `slotNames`: an array of the names of an object's slots, the topmost class first; empty for any
/// other value.
pub fn slot_names(world: &mut World, code: &CodeProgram, object: Value) -> Result<Value, Fault>
    requires lawful { IsLawful world.old.world code.now }
    requires there { CellIsThere world.old.world.cells object }
    requires room { world.old.world.limits.cells ≤ world.old.cell_room }
    ensures { Gives (spec.slot_names world.old.world code.now object) world.old result world.new }
{
    let class = object_class(world, object);
    let to = new_array(world, slot_count(world, code, class))?;
    put_names(world, code, to, class);
    Ok(Value::Ref(to))
}

/// How many slots the instances of a class have.
fn slot_count(world: &World, code: &CodeProgram, class: u32) -> u32
    requires lawful { IsLawful world.now.world code.now }
    requires class { IsTrue (is_chain_start world.now.world.cells class) }
    ensures { result ≡ length (spec.slot_names_along world.now.world.cells code.now (chain_of world.now.world.cells class)) }
{
    let mut at = class;
    let mut count: u32 = 0;
    'up: while !world.is_past(at) {
        count += declared_slots(code, world.declaration(at)).len() as u32;
        at = world.superclass(at);
    }
    count
}

/// Writes the names of the slots along a chain into an array, and gives the place behind them.
fn put_names(world: &mut World, code: &CodeProgram, to: u32, class: u32) -> u32
    requires fits { Fits code.now }
    requires class { IsTrue (is_chain_start world.old.world.cells class) }
    requires inside { length (spec.slot_names_along world.old.world.cells code.now (chain_of world.old.world.cells class))
        ≤ length (open_words_at world.old.world.cells to) }
    requires few { length (open_words_at world.old.world.cells to) < 2 ^ 32 }
    ensures world { world.new ≡ listed world.old to 0 (spec.slot_names_along world.old.world.cells code.now (chain_of world.old.world.cells class)) }
    ensures place { result ≡ length (spec.slot_names_along world.old.world.cells code.now (chain_of world.old.world.cells class)) }
{
    if world.is_past(class) {
        return 0;
    }
    let decl = world.declaration(class);
    let over = world.superclass(class);
    let at = put_names(world, code, to, over);
    put_slots(world, to, at, declared_slots(code, decl))
}

/// Writes the names of slots into an array, from a place on, and gives the place behind them.
fn put_slots(world: &mut World, to: u32, at: u32, slots: &[SlotCode]) -> u32
    requires inside { at + length slots.now ≤ length (open_words_at world.old.world.cells to) }
    requires few { length (open_words_at world.old.world.cells to) < 2 ^ 32 }
    ensures world { world.new ≡ listed world.old to at (spec.slot_symbols slots.now) }
    ensures place { result ≡ at + length slots.now }
{
    let mut place = at;
    'slots: for slot in slots {
        world.write(to, place, Value::Sym(slot.name));
        place += 1;
    }
    place
}
