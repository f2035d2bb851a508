//! The classes that an object keeps.

ghost use Rattle.std.specs.Prelude.{◌≡◌, ◌<◌, ◌≤◌, ◌^◌, length, IsTrue};
ghost use Rattle.ns_world.specs.Heap.{find_cell, is_class};
ghost use Rattle.ns_world.specs.Lawful.{IsLawful, HasHolder};
ghost use Rattle.ns_world.specs.Layout.{declaration_of, entry_word};
ghost use Rattle.ns_code.specs.Fits.{Fits};
ghost use Rattle.ns_world.specs.declared.value.Value.TheVariants.{Ref};
ghost use Rattle.ns_classes.specs.Nested.{place_of, has_nested, nested_entry, kept_in, kept_class};

use crate::layout::word;
use ns_code::class::NestedCode;
use ns_code::program::CodeProgram;
use ns_world::value::Value;
use ns_world::world::World;

/// The class that an object keeps of a nested class of a holder in its chain; none exactly where
/// none is kept.
pub fn nested(
    world: &World,
    code: &CodeProgram,
    object: u32,
    holder: u32,
    class: u32,
) -> Option<u32>
    requires lawful { IsLawful world.now.world code.now }
    requires object { HasHolder world.now.world.cells (Ref object) holder }
    requires holder { IsTrue (is_class (find_cell world.now.world.cells holder)) }
    requires class { IsTrue (has_nested code.now (declaration_of world.now.world.cells holder) class) }
    ensures { result ≡ kept_class world.now.world.cells code.now object holder class }
{
    kept_in(world.read(object, kept_word(world, code, holder, class)))
}

/// The word at which each object whose chain has a holder keeps a nested class of it.
fn kept_word(world: &World, code: &CodeProgram, holder: u32, class: u32) -> u32
    requires lawful { IsLawful world.now.world code.now }
    requires holder { IsTrue (is_class (find_cell world.now.world.cells holder)) }
    requires class { IsTrue (has_nested code.now (declaration_of world.now.world.cells holder) class) }
    ensures { result ≡ entry_word world.now.world.cells code.now holder (nested_entry code.now (declaration_of world.now.world.cells holder) class) }
{
    let entry = nested_entry(code, world.declaration(holder), class);
    word(world, code, holder, entry)
}

/// The number of the entry of a nested class: the nested classes stand after the slots.
pub fn nested_entry(code: &CodeProgram, decl: u32, class: u32) -> u32
    requires fits { Fits code.now }
    requires class { IsTrue (has_nested code.now decl class) }
    ensures { result ≡ nested_entry code.now decl class }
{
    match code.classes.as_slice().get(decl as usize) {
        Some(declared) => declared.slots.len() as u32 + place_of(declared.nested.as_slice(), class),
        None => 0,
    }
}

/// The place of a nested class among those of its declaration.
fn place_of(nested: &[NestedCode], class: u32) -> u32
    requires { length nested.now < 2 ^ 16 }
    ensures place { result ≡ place_of nested.now class }
    ensures bound { result ≤ length nested.now }
{
    let mut place: u32 = 0;
    'places: for one in nested {
        if one.class == class {
            return place;
        }
        place += 1;
    }
    place
}

/// The class that a word keeps, if it keeps one.
fn kept_in(value: Value) -> Option<u32>
    ensures { result ≡ kept_in value }
{
    match value {
        Value::Ref(class) => Some(class),
        _ => None,
    }
}
